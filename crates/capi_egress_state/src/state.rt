// The outlet's state in a row of 145 numbers: 8 heads, 8 counts, 64 slots, 64 lengths, channel by channel, and the next channel. Who reads or writes
// one asks that the row is long enough.
ghost use Rattle.std.specs.Prelude.{true, ◌≡◌, ◌≤◌, length};
ghost use Rattle.wire_spec.specs.Bits.{overwrite};
ghost use Rattle.capi_egress_state.specs.Row.{ChangedAt, is_state, numbers_of, row_size, state_at};

use crate::numbers::{joined, put_lengths, put_octets, take_lengths, take_octets};
use egress_spec::state::{CHANNELS, HELD, SLOTS, State};

// Where the heads, the counts, the slots, the lengths and the next channel stand in a row.
const HEADS_AT: usize = 0;

const COUNTS_AT: usize = 8;

const SLOTS_AT: usize = 16;

const LENGTHS_AT: usize = 80;

const NEXT_AT: usize = 144;

// The largest numbers of 8 and of 16 bits.
const MAX_8: u64 = 0xff;

const MAX_16: u64 = 0xffff;

// Whether each number of a row is one that its value can have: lengths have 16 bits, all others 8.
pub fn is_state(row: &[u64]) -> bool
    requires { row_size ≤ length row.now }
    ensures { result ≡ is_state row.now }
{
    let heads = joined(&row[HEADS_AT..COUNTS_AT]);
    let counts = joined(&row[COUNTS_AT..SLOTS_AT]);
    let slots = joined(&row[SLOTS_AT..LENGTHS_AT]);
    let lengths = joined(&row[LENGTHS_AT..NEXT_AT]);
    let others = (lengths <= MAX_16) & (row[NEXT_AT] <= MAX_8);
    (heads <= MAX_8) & ((counts <= MAX_8) & ((slots <= MAX_8) & others))
}

// The state whose numbers stand in a row.
pub fn state_in(row: &[u64]) -> State
    requires { (row_size ≤ length row.now) × (is_state row.now ≡ true) }
    ensures { result ≡ state_at row.now }
{
    let mut heads: [u8; CHANNELS] = [0; CHANNELS];
    take_octets(&row[HEADS_AT..COUNTS_AT], &mut heads);
    let mut counts: [u8; CHANNELS] = [0; CHANNELS];
    take_octets(&row[COUNTS_AT..SLOTS_AT], &mut counts);
    let mut slots: [u8; SLOTS] = [0; SLOTS];
    take_octets(&row[SLOTS_AT..LENGTHS_AT], &mut slots);
    let mut lengths: [u16; SLOTS] = [0; SLOTS];
    take_lengths(&row[LENGTHS_AT..NEXT_AT], &mut lengths);
    State {
        heads,
        counts,
        slots,
        lengths,
        next: row[NEXT_AT] as u8,
    }
}

// Writes the numbers of a state to the first of a row.
pub fn put_state(state: State, row: &mut [u64])
    requires { row_size ≤ length row.old }
    ensures { row.new ≡ overwrite (numbers_of state) row.old }
{
    let heads = state.heads;
    put_octets(&heads, HEADS_AT, row);
    let counts = state.counts;
    put_octets(&counts, COUNTS_AT, row);
    let slots = state.slots;
    put_octets(&slots, SLOTS_AT, row);
    let lengths = state.lengths;
    put_lengths(&lengths, LENGTHS_AT, row);
    row[NEXT_AT] = state.next as u64;
}

// Writes the numbers of a state to a row that differs from it at most in a channel's head, count and last
// place, and in the next channel: a call changes no others.
pub fn put_channel(state: State, channel: usize, row: &mut [u64])
    requires { ChangedAt row.old state channel }
    ensures { row.new ≡ overwrite (numbers_of state) row.old }
{
    let head = state.heads[channel];
    let count = state.counts[channel];
    let last = HELD * channel + ((head as usize) + (count as usize) + HELD - 1) % HELD;
    row[HEADS_AT + channel] = head as u64;
    row[COUNTS_AT + channel] = count as u64;
    row[SLOTS_AT + last] = state.slots[last] as u64;
    row[LENGTHS_AT + last] = state.lengths[last] as u64;
    row[NEXT_AT] = state.next as u64;
}
