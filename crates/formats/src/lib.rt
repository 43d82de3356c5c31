// The keys and the records of a node, of either tree: here the trees part, and above only the tests of a node and the fast code ask which one it is.
#![tactic(auto)]

pub mod keys;
pub mod records;
