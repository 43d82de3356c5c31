// Tests of an HFS node that say only that it surely passes: an answer of false or None says nothing; `is_whole` alone answers either way.
#![tactic(auto)]

pub mod leaf;
pub mod node;
pub mod records;
