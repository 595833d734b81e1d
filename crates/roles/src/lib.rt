// What a word has to be by document 01's section "Word layout", and the rule that it breaks.
#![tactic(auto)]

pub mod cause;
pub mod role;
