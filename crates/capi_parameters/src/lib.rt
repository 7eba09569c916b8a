#![tactic(auto)]
// The C boundary (include/jibhotran.h) of SDP format parameters, and whether a record is wanted.
//
// A call returns 0 or a refusal's number; what it returns beside that goes to the caller's row of numbers,
// `answer`.
mod answer;
pub mod parameters;
