// A graph is tried without being pushed.
#![tactic(auto)]

pub mod guess;
pub mod told;
