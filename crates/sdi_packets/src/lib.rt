#![tactic(auto)]
// Packets of a line of the serial interface (02, K6) that were checked: listed as cells, and written from cells. The functions ask that the check
// accepted what they read or write, and for the room.
pub mod reading;
pub mod writing;
