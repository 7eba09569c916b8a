#![tactic(auto)]
// A depacketizer's state as a row of numbers, which the C boundary passes.
pub mod row;
pub mod state;
