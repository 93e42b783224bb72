// The frames of the trials: their header lines, what is lent for the next frame, and the pieces of the lines that answer them.
#![tactic(auto)]

pub mod headers;
pub mod lending;
pub mod lines;
