// A description that stands loaded is entered: its graph and all that is certain in it are pushed. What the steps of every mode stand on.
#![tactic(auto)]

pub mod enter;
pub mod settle;
