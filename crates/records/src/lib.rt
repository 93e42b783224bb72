// The words and steps of a decision record, and the rules that it keeps. Nothing here knows who writes a record or who checks it.
#![tactic(auto)]

pub mod layout;
pub mod steps;
pub mod words;
