// What is left once the consistent choices are found: whichever engine found them.
#![tactic(auto)]

pub mod leave;
