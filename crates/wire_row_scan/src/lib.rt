#![tactic(auto)]
// Rows of words in octets, passed over once: for their sum, and for protected words among them. Every function here serves the crates above and
// states what it asks of them.
pub mod scan;
