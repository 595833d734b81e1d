// The plain engine: every choice is joined by itself.
#![tactic(auto)]

pub mod expand;
pub mod light;
