// The lent working area: its map, clearing a part of it, and an undo log over its first part.
#![tactic(auto)]

pub mod clearing;
pub mod log;
pub mod map;
