// From the signs of a formula to its rows and alternatives: which groups have alternatives.
#![tactic(auto)]

pub mod flags;
