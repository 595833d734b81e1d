// What is read of the loaded words, and the marks of the alternatives there.
#![tactic(auto)]

pub mod marking;
pub mod positions;
pub mod tally;
