// Calls on small catalogs that are proved: see specs/Table.antt and proofs/Table.antt.
#![tactic(auto)]
