#![tactic(auto)]
// What C callers may rely on over many calls: what a refused arrival leaves of the rows, and demand 3 of
// `jibhotran_open` and `jibhotran_arrive`. In specs/ and proofs/: no code.
