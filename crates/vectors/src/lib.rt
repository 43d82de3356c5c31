// The bench images that are proved: see specs/Bench.antt and proofs/Bench.antt.
#![tactic(auto)]
