// Calls with bytes lent, and the bytes afterwards, proved: see specs/Table.antt and proofs/Table.antt.
#![tactic(auto)]
