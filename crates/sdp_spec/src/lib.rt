#![tactic(auto)]
// SDP format parameters (RFC 8331, sections 3.1 and 4; 01, "SDP parameters"): their types. The definitions of the grammar, the reading and
// the writing are in specs/, their theorems in proofs/.
pub mod item;
pub mod parameters;
