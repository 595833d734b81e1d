// The choices of both inputs by their numbers: which alternatives the choice with a given number takes.
#![tactic(auto)]

pub mod choose;
pub mod sum;
pub mod word;
