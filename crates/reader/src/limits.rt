// The limit of a text, as the code has it; specs/ReaderLimits.antt has it for the promises.

// A text has at most this many bytes.
pub const TEXT: usize = 65_536;
