#![tactic(auto)]
// Runs of ANC data packets (RFC 8331, section 2.1): checked as octets, then read out as cells.
//
// `check_run` is the entry point: it takes any octets. `read_run` writes what `check_run` has accepted, and asks for that.
pub mod check;
pub mod header;
pub mod read;
