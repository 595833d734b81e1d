// The text that `meet` reads: a number, and a call, from bytes.
#![tactic(auto)]

pub mod call;
pub mod number;
