// The search for a key in a tree that has been checked: in a node, and from the root down; and for a row of keys.
#![tactic(auto)]

pub mod descent;
pub mod halving;
pub mod rows;
