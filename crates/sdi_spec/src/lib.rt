#![tactic(auto)]
// Lines of the serial interface (02, K6): the format as definitions and laws, and the types that carry it. The code is the crate `sdi`.
pub mod answer;
pub mod position;
