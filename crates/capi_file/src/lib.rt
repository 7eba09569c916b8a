#![tactic(auto)]
// The C boundary (include/jibhotran.h) of field files, and lines of the serial interface.
//
// A call returns 0 or a refusal's number; what it returns beside that goes to the caller's row of numbers,
// `answer`.
mod answer;
pub mod file;
pub mod line;
