#![tactic(auto)]
// What a call of the outlet finds in a state, and what it leaves (02, K10): for `egress`.
pub mod place;
pub mod survey;
