#![tactic(auto)]
// Whether a recorded stream keeps the rules (02, K12): what is carried from packet to packet, and what a packet can show. The rules, the checker's step and
// K12's theorems stand in specs/ and proofs/: no code.
pub mod checker;
pub mod finding;
pub mod place;
