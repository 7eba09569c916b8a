#![tactic(auto)]
// The outlet through the C boundary (02, K10), of what its calls take and return. In specs/ and proofs/: no
// code.
