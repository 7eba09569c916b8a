#![tactic(auto)]
// Runs of ANC data packets in the tolerant way (02, K9): a record that fails only its checksum is left out and counted.
//
// `check_run` is the entry point: it takes any octets. `read_run` writes what `check_run` has accepted, and asks for that. A run that the strict way
// (`anc_reader`) accepts has none to leave out: callers go this way only where that one refuses by 11, and good packets pay nothing.
pub mod check;
pub mod packet;
pub mod read;
