#![tactic(auto)]
// The C boundary (include/jibhotran.h) of RTP packets with ANC payload: read, in both ways, and written.
//
// A call returns 0 or a refusal's number; what it returns beside that goes to the caller's row of numbers,
// `answer`.
mod answer;
pub mod packet;
