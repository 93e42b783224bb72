// The limits of a token, as the code has them; specs/TextLimits.antt has them for the promises.

// A number has at most this many digits.
pub const DIGITS: usize = 13;
// A name has at most this many bytes.
pub const NAME: usize = 64;
// A name has no byte below this one.
pub const NAME_BYTE_LEAST: u8 = 33;
// A name has no byte above this one.
pub const NAME_BYTE_MOST: u8 = 126;
