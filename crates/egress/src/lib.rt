#![tactic(auto)]
// The shared outlet (02, K10): each channel gets its turn, and none can fill the outlet for the others.
//
// `open`, `offer` and `take` are the entry points. State and memory are the caller's, who hands both on unaltered from call to call.
ghost use Rattle.std.specs.Prelude.{◌≡◌, length};
ghost use Rattle.wire_spec.specs.Result.{refuse};
ghost use Rattle.egress_spec.specs.Places.{open_state};
ghost use Rattle.egress_spec.specs.Step.{offer_of, offered_of, memory_after, take_of, taken_of, out_after};

use egress_spec::state::{CHANNELS, HELD, HandedOut, Offered, SLOT, SLOTS, State, Taken};
use egress_state::place::{head, kept, left, offer_fits, turn};
use egress_state::survey::{free_slot, survey};
use wire_spec::count::OctetCount;
use wire_spec::refusal::{Refusal, refuse};
use wire_words::octet::copy;

// An outlet that holds nothing. What the memory holds does not matter.
pub fn open() -> State
    ensures { result ≡ open_state }
{
    State {
        heads: [0; CHANNELS],
        counts: [0; CHANNELS],
        slots: [0; SLOTS],
        lengths: [0; SLOTS],
        next: 0,
    }
}

fn refuse_offer(state: State, number: u8) -> Offered
    ensures { result ≡ offered_of state (refuse number 0) }
{
    Offered {
        state,
        answer: refuse(number),
    }
}

// Copies a packet into a free slot, behind its channel's last: refused by 64, 60, 61, 62, in that order.
pub fn offer(state: State, channel: u8, packet: &[u8], memory: &mut [u8]) -> Offered
    ensures value { result ≡ offered_of state (offer_of state channel (length packet.now) (length memory.old)) }
    ensures memory_after { memory.new ≡ memory_after state (offer_of state channel (length packet.now) (length memory.old)) packet.now memory.old }
{
    let seen = survey(state, memory.len());
    if !seen.sound {
        return refuse_offer(state, Refusal::OUTLET_UNSOUND);
    }
    let c = channel as usize;
    if c >= CHANNELS {
        return refuse_offer(state, Refusal::CHANNEL_INVALID);
    }
    let length = packet.len();
    if !offer_fits(length) {
        return refuse_offer(state, Refusal::OFFER_SIZE_INVALID);
    }
    if (state.counts[c] as usize) >= HELD {
        return refuse_offer(state, Refusal::CHANNEL_FULL);
    }
    let used = seen.used;
    let slot = free_slot(used);
    let from = SLOT * slot;
    copy(packet, &mut memory[from..]);
    Offered {
        state: kept(state, c, slot as u8, length as u16),
        answer: Ok(()),
    }
}

fn refuse_take(state: State, number: u8) -> Taken
    ensures { result ≡ taken_of state (refuse number 0) }
{
    Taken {
        state,
        answer: refuse(number),
    }
}

// Hands out the head of the next channel in the circle that holds a packet: refused by 64, 63, 23, in that order.
pub fn take(state: State, memory: &[u8], out: &mut [u8]) -> Taken
    ensures value { result ≡ taken_of state (take_of state (length memory.now) (length out.old)) }
    ensures out_after { out.new ≡ out_after state memory.now (take_of state (length memory.now) (length out.old)) out.old }
{
    let seen = survey(state, memory.len());
    if !seen.sound {
        return refuse_take(state, Refusal::OUTLET_UNSOUND);
    }
    let counts = state.counts;
    let c = turn(counts, state.next as usize);
    if c >= CHANNELS {
        return refuse_take(state, Refusal::NOTHING_WAITS);
    }
    let stored = head(state, c);
    let from = stored.from;
    let length = stored.octets;
    let next = left(state, c);
    if out.len() < length {
        return refuse_take(state, Refusal::ROOM_TOO_SMALL);
    }
    let end = from + length;
    copy(&memory[from..end], out);
    Taken {
        state: next,
        answer: Ok(HandedOut {
            channel: c as u8,
            octets: OctetCount(length),
        }),
    }
}
