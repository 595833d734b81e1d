// Test libraries in house blocks: writing one.
#![tactic(auto)]

mod entries;
mod filling;
pub mod write;
