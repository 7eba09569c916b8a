#![tactic(auto)]
// The depacketizer's state and its answers (01, "The keeper"). What an arrival does to them, and demand 3, stand in specs/: no code.
pub mod state;
