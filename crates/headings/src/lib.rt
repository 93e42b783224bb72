// What a text begins with: the header, then the domain sizes.
#![tactic(auto)]

pub mod domains;
pub mod headers;
