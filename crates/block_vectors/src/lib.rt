// Blocks of files in small pairs of a catalog and an extents overflow file, proved: see specs/Table.antt and proofs/Table.antt.
#![tactic(auto)]
