// Whether state and memory are those of an outlet, and which slots are held (02, K10: 64).
ghost use Rattle.std.specs.Prelude.{◌≡◌, false, ◌<◌, ltb, get_or};
ghost use Rattle.egress_spec.specs.Places.{all_upto, channel_fits, held_at, length_fits, numbers_ok, slot_ok};
ghost use Rattle.egress_spec.specs.Step.{seek};
ghost use Rattle.egress_state.specs.Survey.{SeenOf};

use egress_spec::state::{CHANNELS, HELD, MEMORY, SLOT, SLOTS, State};

// Where it is sound, `used` has the slots that are held.
#[derive(Clone, Copy)]
pub struct Seen {
    pub sound: bool,
    pub used: [bool; SLOTS],
}

// Whether a packet is held at place `k`.
fn is_held(k: usize, head: u8, count: u8) -> bool
    requires { (k < 64) × (head < 8) }
    ensures { result ≡ held_at k head count }
{
    (k % HELD + HELD - (head as usize)) % HELD < (count as usize)
}

// A held packet's length is in range.
fn length_fits(length: u16) -> bool
    ensures { result ≡ length_fits length }
{
    (1 <= length) & ((length as usize) <= SLOT)
}

// A slot's number is in range.
fn slot_fits(slot: u8) -> bool
    ensures { result ≡ ltb slot 64 }
{
    (slot as usize) < SLOTS
}

// Every slot's number is in range, held or not.
fn slots_fit(state: State) -> bool
    ensures { result ≡ all_upto (slot_ok state) 64 }
{
    for k in 0..SLOTS {
        if !slot_fits(state.slots[k]) {
            return false;
        }
    }
    true
}

// A channel's head and count are in range.
fn channel_fits(head: u8, count: u8) -> bool
    ensures { result ≡ channel_fits head count }
{
    ((head as usize) <= HELD - 1) & ((count as usize) <= HELD)
}

// The heads, the counts, the next channel and the slots are in range.
fn numbers_fit(state: State) -> bool
    ensures { result ≡ numbers_ok state }
{
    for c in 0..CHANNELS {
        if !channel_fits(state.heads[c], state.counts[c]) {
            return false;
        }
    }
    if CHANNELS <= (state.next as usize) {
        return false;
    }
    slots_fit(state)
}

pub fn survey(state: State, memory: usize) -> Seen
    ensures { SeenOf state memory result }
{
    let mut used = [false; SLOTS];
    if memory != MEMORY {
        return Seen { sound: false, used };
    }
    if !numbers_fit(state) {
        return Seen { sound: false, used };
    }
    for c in 0..CHANNELS {
        let head = state.heads[c];
        let count = state.counts[c];
        for i in 0..HELD {
            let k = HELD * c + i;
            if is_held(k, head, count) {
                if !length_fits(state.lengths[k]) {
                    return Seen { sound: false, used };
                }
                let slot = state.slots[k] as usize;
                if used[slot] {
                    return Seen { sound: false, used };
                }
                used[slot] = true;
            }
        }
    }
    Seen { sound: true, used }
}

// The first slot that is not used, or 64.
pub fn free_slot(used: [bool; SLOTS]) -> usize
    ensures { result ≡ seek 64 (λ s. get_or used s false) 0 }
{
    used.iter().position(|taken| !*taken).unwrap_or(SLOTS)
}
