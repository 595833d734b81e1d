// The node where two loaded definite graphs clash. Their atoms are taken out, so that their classes come to be complete, and then the
// heads of all nodes pass by class by class.
#![tactic(auto)]

pub mod finding;
pub mod heads;
pub mod notes;
