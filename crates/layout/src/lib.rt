// Words as document 01's section "Word layout" has them: `reading` tells whether they are a description, `skipping` finds where a
// graph or a description ends.
#![tactic(auto)]

pub mod reading;
pub mod skipping;
