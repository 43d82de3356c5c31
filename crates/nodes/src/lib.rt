// The form of a node by itself: test 5.
#![tactic(auto)]

pub mod form;
