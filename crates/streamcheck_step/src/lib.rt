#![tactic(auto)]
// Whether a packet of a stream keeps the rules (02, K12): `streamcheck_spec`'s step as code.
//
// `packet::check_packet` takes a packet's octets.
pub mod packet;
pub mod step;
