// Reading the text of a suite: its names are taken out, and its tests are found and judged.
#![tactic(auto)]

pub mod tests;
pub mod text;
