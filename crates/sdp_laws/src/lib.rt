#![tactic(auto)]
// SDP parameters (01, "SDP parameters"), of what `sdp_reader::read` and `sdp_writer::write` take and return. In specs/ and proofs/: no code.
