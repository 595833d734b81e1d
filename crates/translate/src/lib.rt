// The description of a formula, from its text.
#![tactic(auto)]

pub mod answer;
pub mod formula;
mod hand;
mod homes;
