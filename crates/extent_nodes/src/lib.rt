// The records of a node of an extents overflow file, and test 5 of them.
#![tactic(auto)]

pub mod records;
