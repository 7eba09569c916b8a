#![tactic(auto)]
// How many lines `fieldlist` prints, of any input. In specs/ and proofs/: no code.
