// How a record is laid out, as the code has it; specs/Words.antt, Steps.antt and Records.antt have it for the promises.

// A word's bytes.
pub const WORD_BYTES: usize = 8;
// "A header of eight counts and offsets".
pub const HEADER_WORDS: usize = 8;

pub const HEADER_BYTES: usize = HEADER_WORDS * WORD_BYTES;
// A step's words: kind, function, variable, value, amount.
pub const STEP_WORDS: usize = 5;

pub const STEP_BYTES: usize = STEP_WORDS * WORD_BYTES;
