// The joined graph of the pushed graphs, written out of their classes.
#![tactic(auto)]

pub mod arcs;
pub mod graph;
