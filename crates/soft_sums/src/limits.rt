// The limits of a soft sum, as the code has them; specs/SoftLimits.antt has them for the promises.

// The base of a soft sum is at most this.
pub const BASE: u64 = 1_000_000_000_000;
// K of a soft sum is at most this.
pub const LIMIT: u64 = 1_000;
