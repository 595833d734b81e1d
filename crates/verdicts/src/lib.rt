// What is said of a test, and how it is counted.
#![tactic(auto)]

pub mod table;
pub mod verdict;
