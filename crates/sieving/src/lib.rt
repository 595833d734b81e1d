// A sieve for features: a table that tells where to look for a feature among the arcs of all roots, and of most features that there is
// none.
#![tactic(auto)]

pub mod gather;
pub mod through;
