#![tactic(auto)]
// Rows of ten-bit words in octets, eight words a turn, in numbers of 16 bits: eight words at once (`lane`), read out as cells (`row`). `wire_row_scan`
// passes over rows, `wire_row_writer` writes them. Every function here serves the crates above and states what it asks of them.
pub mod lane;
pub mod row;
