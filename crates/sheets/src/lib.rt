// One definite part: its sheet is told to clash, or drawn as a graph.
#![tactic(auto)]

pub mod drawing;
