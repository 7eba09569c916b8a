#![tactic(auto)]
// Of what the entry points of reader and writer take and return: demand 2 in the tolerant way (02, K9), refusals, lent memory. In specs/ and proofs/: no code.
