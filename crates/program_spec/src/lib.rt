#![tactic(auto)]
// A program's run: it takes the item at the front of its input, writes the text that waits, or reads more. Types, definitions and theorems; no code.
pub mod buffers;
