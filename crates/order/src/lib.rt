// The order of a node's keys: test 6, and whether a node is a whole leaf.
#![tactic(auto)]

pub mod ascent;
pub mod keys;
pub mod whole;
