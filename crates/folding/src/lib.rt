// What is left of a formula's alternatives, and its words.
#![tactic(auto)]

pub mod buffer;
pub mod settle;
