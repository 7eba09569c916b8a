// The depacketizer's state, and its answers to an arrival.
use wire_spec::number::{PacketNumber, Timestamp};
use wire_spec::refusal::Refusal;

// Lost: a field cannot start before a marked packet. Ready: the next packet starts a field. Filling: a field is gathered.
#[derive(Clone, Copy)]
pub enum Phase {
    Lost,
    Ready,
    Filling,
}

// Flat, so that a state that refusal 35 names can be said. Not filling, `timestamp`, `f`, `records`, `cells` and `packets` are 0; so is
// `remembered` where no number is remembered.
#[derive(Clone, Copy)]
pub struct State {
    pub source: u32,
    pub payload_type: u8,
    pub phase: Phase,
    // Whether a first packet arrived; its number, or that of the last fresh one since, is `last`.
    pub heard: bool,
    pub last: PacketNumber,
    pub timestamp: Timestamp,
    pub f: u8,
    pub records: usize,
    pub cells: usize,
    // The packets of the field that is gathered; its next one has this index (02, K13).
    pub packets: usize,
    pub fresh: u64,
    pub late: u64,
    pub missing: u64,
    // Whether an arrival was far and none was fresh since; the number after the last such one is `remembered` (02, K11).
    pub remembers: bool,
    pub remembered: PacketNumber,
}

// A whole field: its records are the first `cells` cells of the store. It came in so many packets, with records or without.
#[derive(Clone, Copy)]
pub struct Field {
    pub timestamp: Timestamp,
    pub f: u8,
    pub records: usize,
    pub cells: usize,
    pub packets: usize,
}

// Kept whole: a refusal is one of the six answers to an arrival, which C's row and `Table.told-iff` number together.
#[derive(Clone, Copy)]
pub enum Answer {
    Skipped,
    Held,
    Mixed,
    Overfull,
    Whole(Field),
    Refused(Refusal),
}
