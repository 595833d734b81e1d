// Classes of nodes as a forest in the lent working area, each with the chain of its arcs: finding, walking, and uniting two with all
// that follows from it.
#![tactic(auto)]

pub mod chain;
pub mod forest;
pub mod held;
pub mod merge;
pub mod settle;
