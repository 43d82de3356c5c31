// Rows laid down as trees, and the targets afterwards, proved: see specs/Table.antt and proofs/Table.antt.
#![tactic(auto)]
