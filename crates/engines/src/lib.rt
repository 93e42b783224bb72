// What every search shares: its task, its progress, and what it tells at its end.
#![tactic(auto)]

pub mod progress;
pub mod results;
pub mod tasks;
pub mod telling;
