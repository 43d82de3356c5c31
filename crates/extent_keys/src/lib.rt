// The keys of an extents overflow file, of HFS and of HFS Plus.
#![tactic(auto)]

pub mod key;
