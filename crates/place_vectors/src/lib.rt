// An image for each row of the table of places, proved: see specs/Table.antt and proofs/Table.antt.
#![tactic(auto)]
