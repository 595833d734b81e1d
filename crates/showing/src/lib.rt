// What the marks leave, put out as the words of the result.
#![tactic(auto)]

pub mod copy;
pub mod graph;
pub mod lone;
pub mod put;
pub mod show;
