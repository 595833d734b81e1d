// The rows of one definite part: their labels are closed, the arcs listed by label, and each label is given its atom.
#![tactic(auto)]

pub mod bearing;
pub mod closing;
pub mod rows;
