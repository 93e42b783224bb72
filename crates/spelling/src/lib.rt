// The steps of a record: whether they spell one tree and keep its rules. It stands on the shift rules alone.
#![tactic(auto)]

pub mod claims;
pub mod faults;
pub mod steps;
mod trees;
