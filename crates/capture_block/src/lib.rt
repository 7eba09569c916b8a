#![tactic(auto)]
// How many octets a record or a block of a capture has, and what a block of a section holds.
pub mod block;
pub mod number;
