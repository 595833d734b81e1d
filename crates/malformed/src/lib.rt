// What is malformed of two inputs, and the part of whichever of them starts at the word that decides.
#![tactic(auto)]

pub mod judging;
pub mod part;
