// Joining graphs by classes of nodes, in the lent working area.
#![tactic(auto)]

pub mod ask;
pub mod push;
pub mod visit;
