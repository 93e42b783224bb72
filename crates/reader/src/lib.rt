// The text of a network, read into the network's numbers and a lent table of costs. The room's door is `reading::read`.
#![tactic(auto)]

pub mod limits;
pub mod reading;
