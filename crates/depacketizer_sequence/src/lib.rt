#![tactic(auto)]
// Where a packet stands among the fresh ones (01, "The keeper"; 02, K11): its distance from the last fresh one, and what that says.
//
// `place::place` is what the depacketizer asks.
pub mod distance;
pub mod place;
