// The number of choices over the kept alternatives, stopping at 4,097.
#![tactic(auto)]

pub mod choices;
