// Test libraries in house blocks: reading a description of one, listing one, and checking its blocks.
#![tactic(auto)]

pub mod index;
pub mod list;
pub mod read;
pub mod row;
pub mod survey;
