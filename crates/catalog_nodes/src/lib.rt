// The nodes of a catalog file.
#![tactic(auto)]

pub mod records;
