// The full step: the limit on choices, the engine that finds the consistent ones, and what is left after it.
#![tactic(auto)]

pub mod full;
