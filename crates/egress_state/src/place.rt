// A channel's ring of places: a packet put behind its last, and its head taken off. Who calls these has surveyed the state: they ask, by
// their `requires`, for numbers in range.
ghost use Rattle.std.specs.Prelude.{◌≡◌, ◌&&◌, ◌<◌, leb, get_or};
ghost use Rattle.egress_spec.specs.Queues as queues;
ghost use Rattle.egress_spec.specs.Step.{kept_state, turn_of, left_state};
ghost use Rattle.egress_state.specs.Survey.{head_of, Heads};

use egress_spec::state::{CHANNELS, HELD, SLOT, State};

// Whether a packet of so many octets can be offered.
pub fn offer_fits(octets: usize) -> bool
    ensures { result ≡ leb 1 octets && leb octets queues.slot_size }
{
    (1 <= octets) & (octets <= SLOT)
}

// The state with one more packet at the end of a channel's queue.
pub fn kept(state: State, channel: usize, slot: u8, length: u16) -> State
    requires { (channel < 8) × (get_or state.heads channel 0 < 8) × (get_or state.counts channel 0 < 8) }
    ensures { result ≡ kept_state state channel slot length }
{
    let at = HELD * channel
        + ((state.heads[channel] as usize) + (state.counts[channel] as usize)) % HELD;
    let mut next = state;
    next.slots[at] = slot;
    next.lengths[at] = length;
    next.counts[channel] = state.counts[channel] + 1;
    next
}

// The next in a circle of eight: of the channels, or of a channel's places.
fn behind(channel: usize) -> usize
    ensures { (result ≡ queues.behind channel) × (result < 8) }
{
    if channel < CHANNELS - 1 {
        channel + 1
    } else {
        0
    }
}

// The channel whose turn it is, or 8.
pub fn turn(counts: [u8; CHANNELS], next: usize) -> usize
    requires { next < 8 }
    ensures { result ≡ turn_of 8 counts next }
{
    let mut c = next;
    for _ in 0..CHANNELS {
        if counts[c] > 0 {
            return c;
        }
        c = behind(c);
    }
    CHANNELS
}

// Where a packet stands in the memory.
#[derive(Clone, Copy)]
pub struct Stored {
    pub from: usize,
    pub octets: usize,
}

// Where a channel's head stands.
pub fn head(state: State, channel: usize) -> Stored
    requires { Heads state channel }
    ensures { result ≡ head_of state channel }
{
    let at = HELD * channel + (state.heads[channel] as usize);
    Stored {
        from: SLOT * (state.slots[at] as usize),
        octets: state.lengths[at] as usize,
    }
}

// The state without the head of a channel's queue, the channel served last.
pub fn left(state: State, channel: usize) -> State
    requires { Heads state channel }
    ensures { result ≡ left_state state channel }
{
    let mut next = state;
    next.heads[channel] = behind(state.heads[channel] as usize) as u8;
    next.counts[channel] = state.counts[channel] - 1;
    next.next = behind(channel) as u8;
    next
}
