// Runs over the leaves below an index node of an HFS extents tree, where they surely pass: the loop, and the walk after it.
#![tactic(auto)]

pub mod leaves;
pub mod run;
