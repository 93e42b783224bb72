// Tokens, numbers, names and words of a text, by byte position.
#![tactic(auto)]

pub mod limits;
pub mod names;
pub mod numbers;
pub mod tokens;
pub mod words;
