// The quick step.
#![tactic(auto)]

pub mod bare;
pub mod narrow;
pub mod pass;
pub mod quick;
pub mod step;
