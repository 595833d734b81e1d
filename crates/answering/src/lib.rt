// How a call ends: what was made is handed over, both areas are left as they have to be, and the answer has its row in document 01's table.
#![tactic(auto)]

pub mod answer;
pub mod areas;
pub mod cause;
pub mod hand;
