// The first word that breaks a rule of document 01's section "Word layout", and why.
#![tactic(auto)]

pub mod fault;
pub mod hint;
mod nesting;
mod next;
mod stop;
pub mod verdict;
