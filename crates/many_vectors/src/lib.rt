// Rows of keys, and the results afterwards, proved: see specs/Table.antt and proofs/Table.antt.
#![tactic(auto)]
