#![tactic(auto)]
// The C boundary (include/jibhotran.h) of the depacketizer, its state in a row of numbers that the caller
// keeps.
//
// A call returns 0 or a refusal's number; what it returns beside that goes to the caller's row of numbers,
// `answer`.
mod answer;
pub mod arrival;
