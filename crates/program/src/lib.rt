#![tactic(auto)]
// What the programs share: what they do between a read and a write.
pub mod buffers;
pub mod progress;
pub mod run;
pub mod streams;
pub mod window;
