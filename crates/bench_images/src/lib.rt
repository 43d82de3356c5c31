// Builds those of the paper's bench images that are run. Every byte not named is left as it is, zero.
#![tactic(auto)]

pub mod node;
pub mod put;
pub mod tree;
