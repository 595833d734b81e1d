// From the marked signs of a formula to its rows and alternatives in tables.
#![tactic(auto)]

pub mod laying;
mod sign;
mod table;
