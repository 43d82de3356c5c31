// Calls for an edition and a node size that are proved: see specs/Table.antt and proofs/Table.antt.
#![tactic(auto)]
