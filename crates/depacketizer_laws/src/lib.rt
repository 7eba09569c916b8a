#![tactic(auto)]
// Demand 3 of what the entry points take and return: `Depacketizer::open`, and then `arrive` for each arrival. In specs/ and proofs/: no code.
