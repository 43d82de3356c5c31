// The keys of an HFS catalog file: how they compare, asked for or where they stand in an image.
#![tactic(auto)]

pub mod keys;
mod names;
mod stored;
pub mod weights;
