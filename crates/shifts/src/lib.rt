// Nodes, the shifts of cost as they are asked for and answered, and how the parts of a network lie in a table at a node.
#![tactic(auto)]

pub mod moves;
pub mod nodes;
pub mod outcomes;
pub mod sites;
