// Both inputs put side by side in the working area, with numbers that run through both instead of each graph's own.
#![tactic(auto)]

pub mod loading;
