// Capped costs, networks and plans: what the rooms above stand on.
#![tactic(auto)]

pub mod capped;
pub mod limits;
pub mod networks;
pub mod plans;
