#![tactic(auto)]
// Packets of a line of the serial interface (02, K6), checked without writing anything. `data_count` asks for the words that it looks at; the other
// functions take any words.
pub mod check;
