// The capacities of document 01, as the code has them; specs/Limits.antt has them for the promises.

// N is at most this.
pub const VARS: usize = 64;
// A domain size is at most this.
pub const SIZE: usize = 16;
// The numbered functions are at most this many.
pub const FUNCTIONS: usize = 256;
// An arity is at most this.
pub const ARITY: usize = 3;
// A function's row: its arity, then places for its scope.
pub const ROW: usize = 1 + ARITY;

pub const ROWS: usize = FUNCTIONS * ROW;
// k is at most this.
pub const COST: u64 = 1_000_000_000_000;
// E is at most this.
pub const ENTRIES: usize = 4_096;
