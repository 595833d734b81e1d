// The full step's search: the choices over the kept alternatives, depth first, by push and undo.
#![tactic(auto)]

pub mod agenda;
pub mod foresee;
pub mod search;
