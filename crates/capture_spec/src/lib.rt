#![tactic(auto)]
// Captures of packets: classic pcap (draft-ietf-opsawg-pcap) and pcapng (draft-ietf-opsawg-pcapng). The types of it and its numbers; what an item at the
// front of a capture is, and what all of a capture holds, stand in specs/ and proofs/: no code.
pub mod format;
pub mod state;
