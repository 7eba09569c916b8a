#![tactic(auto)]
// Numbers and lines told apart by their text, for the theorems over what programs print. In proofs/: no code.
