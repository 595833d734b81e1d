// The graphs of document 01's section "Word layout", as words.
#![tactic(auto)]

pub mod graph;
