// What the nodes of every B*-tree file share, of HFS and of HFS Plus: their sizes, their first bytes, the working bytes they need.
#![tactic(auto)]

pub mod form;
pub mod kind;
pub mod node;
pub mod work;
