#![tactic(auto)]
// Rows of ten-bit words from cells to octets, four words a turn, and their sum; in numbers of 16 bits. Every function here serves the crates above
// and states what it asks of them.
pub mod row;
pub mod sum;
