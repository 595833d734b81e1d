// The text that `meet` prints: an answer as bytes.
#![tactic(auto)]

pub mod answer;
pub mod line;
