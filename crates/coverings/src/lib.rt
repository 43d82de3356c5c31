// The record that covers a block of a file, in the catalog or in the extents overflow file of an HFS volume: both are used by what they promise.
#![tactic(auto)]

pub mod answers;
pub mod covering;
