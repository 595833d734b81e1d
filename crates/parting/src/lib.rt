// The graph of one definite part: its rows are gathered from the tables, and drawn.
#![tactic(auto)]

mod gather;
pub mod part;
pub mod tables;
