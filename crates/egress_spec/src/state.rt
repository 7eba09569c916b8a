// The outlet's state, by value, and what its calls answer.
use wire_spec::count::OctetCount;
use wire_spec::refusal::Refusal;

// "Eight channels share an outlet of 64 slots of 1,024 octets in lent memory, at most eight held by each channel."
pub const CHANNELS: usize = 8;

pub const HELD: usize = 8;

pub const SLOTS: usize = 64;

pub const SLOT: usize = 1024;

pub const MEMORY: usize = 65536;

// A channel has eight places, `8 * c` to `8 * c + 7`, in a ring: its head is at place `heads[c]` of them, and it holds `counts[c]`.
// Kept as four arrays: C's row has them one behind the other, and the laws of turns speak of heads and counts alone.
#[derive(Clone, Copy)]
pub struct State {
    pub heads: [u8; CHANNELS],
    pub counts: [u8; CHANNELS],
    // The slot of the packet held at a place: its octets start at 1,024 times that number.
    pub slots: [u8; SLOTS],
    pub lengths: [u16; SLOTS],
    // The channel that a take looks at first.
    pub next: u8,
}

// The outlet then, and the answer to an offer.
#[derive(Clone, Copy)]
pub struct Offered {
    pub state: State,
    pub answer: Result<(), Refusal>,
}

// A packet handed out stands in the first `octets` of what was lent.
#[derive(Clone, Copy)]
pub struct HandedOut {
    pub channel: u8,
    pub octets: OctetCount,
}

// The outlet then, and the answer to a take.
#[derive(Clone, Copy)]
pub struct Taken {
    pub state: State,
    pub answer: Result<HandedOut, Refusal>,
}
