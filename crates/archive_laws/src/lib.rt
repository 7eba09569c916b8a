#![tactic(auto)]
// What the archive of a recorded stream holds: what was sent and arrived, and nothing that nobody wrote. In specs/ and proofs/: no code.
