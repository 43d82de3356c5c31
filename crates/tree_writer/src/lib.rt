// A fresh tree as a whole: how many nodes it takes, and all of it written into a lent target.
#![tactic(auto)]

pub mod plan;
pub mod whole;
