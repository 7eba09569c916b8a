#![tactic(auto)]
// The outlet's state as a row of numbers, which the C boundary passes (02, K10).
pub mod numbers;
pub mod state;
