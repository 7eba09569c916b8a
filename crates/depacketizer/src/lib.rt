#![tactic(auto)]
// Fields from packets (01, "The keeper"): the depacketizer's state, and what one arrival does to it.
//
// `state::Depacketizer::open` and `state::Depacketizer::arrive` are the entry points. A caller that also needs a
// packet's number or source asks `inspect::inspect` and hands its answer to `arrive_checked`: one check a packet.
pub mod admit;
pub mod count;
pub mod decide;
pub mod inspect;
pub mod state;
