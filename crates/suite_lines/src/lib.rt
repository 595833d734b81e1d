// The lines that a report on a suite is made of.
#![tactic(auto)]

pub mod lines;
