#![tactic(auto)]
// A field file read in turns over the octets at hand (02, K14): files of any length in constant memory. The
// definitions are in specs/, their laws in proofs/; the types of what is found are here: no code.
pub mod found;
