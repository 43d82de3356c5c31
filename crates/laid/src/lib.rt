// The image of a fresh extents tree of HFS, laid down from a row of leaf records. The theory is in specs/ and proofs/.
#![tactic(auto)]
