#![tactic(auto)]
// The shared outlet (02, K10): its state, its answers and its numbers. What a call does, and K10's theorems, stand in specs/ and proofs/: no code.
pub mod state;
