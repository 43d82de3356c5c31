// The shape of a fresh tree: its levels and nodes as numbers alone. The theory is in specs/ and proofs/.
#![tactic(auto)]
