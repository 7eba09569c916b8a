// Every number of an outlet's state tried at its borders (02, K10, refusal 64): a line for a number, and in
// it a mark for each place of the state where it was put, `x` if a take then refuses with 64 and `.` if not.
// Each channel holds four packets, in the first four of its eight places.
use egress_spec::state::{CHANNELS, SLOT, SLOTS, State};
use example_printing::{number, print};
use std::io::Stdout;
use wire_spec::refusal::Refusal;

fn half_held() -> State {
    let mut slots = [0u8; SLOTS];
    for k in 0..SLOTS {
        slots[k] = k as u8;
    }
    State {
        heads: [0; CHANNELS],
        counts: [4; CHANNELS],
        slots,
        lengths: [5; SLOTS],
        next: 0,
    }
}

fn is_unsound(state: State, memory: &[u8]) -> bool {
    let mut out = [0u8; SLOT];
    let taken = egress::take(state, memory, &mut out);
    let answer = taken.answer;
    match answer {
        Err(refusal) => refusal.number == Refusal::OUTLET_UNSOUND,
        Ok(_) => false,
    }
}

fn mark(stdout: Stdout, state: State, memory: &[u8]) {
    if is_unsound(state, memory) {
        print(stdout, b"x");
    } else {
        print(stdout, b".");
    }
}

// A number of the state: a channel's head or count, or a place's slot or length.
#[derive(Clone, Copy)]
pub enum Which {
    Head,
    Count,
    Slot,
    Length,
}

// The state with one number changed, of channel or place `k`.
fn changed(which: Which, k: usize, value: u16) -> State {
    let mut state = half_held();
    match which {
        Which::Head => {
            if k < CHANNELS {
                state.heads[k] = (value % 256) as u8;
            }
        }
        Which::Count => {
            if k < CHANNELS {
                state.counts[k] = (value % 256) as u8;
            }
        }
        Which::Slot => {
            if k < SLOTS {
                state.slots[k] = (value % 256) as u8;
            }
        }
        Which::Length => {
            if k < SLOTS {
                state.lengths[k] = value;
            }
        }
    }
    state
}

fn try_number(
    stdout: Stdout,
    label: &[u8],
    which: Which,
    value: u16,
    places: usize,
    memory: &[u8],
) {
    number(stdout, label, value as u64);
    print(stdout, b" ");
    for k in 0..places {
        mark(stdout, changed(which, k, value), memory);
    }
    print(stdout, b"\n");
}

fn try_next(stdout: Stdout, next: u8, memory: &[u8]) {
    number(stdout, b"next ", next as u64);
    print(stdout, b" ");
    let mut state = half_held();
    state.next = next;
    mark(stdout, state, memory);
    print(stdout, b"\n");
}

fn try_head(stdout: Stdout, head: u16, memory: &[u8]) {
    try_number(stdout, b"head ", Which::Head, head, CHANNELS, memory);
}

fn try_count(stdout: Stdout, count: u16, memory: &[u8]) {
    try_number(stdout, b"count ", Which::Count, count, CHANNELS, memory);
}

fn try_slot(stdout: Stdout, slot: u16, memory: &[u8]) {
    try_number(stdout, b"slot ", Which::Slot, slot, SLOTS, memory);
}

fn try_length(stdout: Stdout, length: u16, memory: &[u8]) {
    try_number(stdout, b"length ", Which::Length, length, SLOTS, memory);
}

fn show_channels(stdout: Stdout, memory: &[u8]) {
    try_head(stdout, 0, memory);
    try_head(stdout, 7, memory);
    try_head(stdout, 8, memory);
    try_head(stdout, 255, memory);
    try_count(stdout, 0, memory);
    try_count(stdout, 8, memory);
    try_count(stdout, 9, memory);
    try_count(stdout, 255, memory);
    try_next(stdout, 0, memory);
    try_next(stdout, 7, memory);
    try_next(stdout, 8, memory);
    try_next(stdout, 255, memory);
}

fn show_places(stdout: Stdout, memory: &[u8]) {
    try_slot(stdout, 63, memory);
    try_slot(stdout, 64, memory);
    try_slot(stdout, 255, memory);
    try_length(stdout, 0, memory);
    try_length(stdout, 1, memory);
    try_length(stdout, 1024, memory);
    try_length(stdout, 1025, memory);
    try_length(stdout, 65535, memory);
}

pub(crate) fn show(stdout: Stdout, memory: &[u8]) {
    show_channels(stdout, memory);
    show_places(stdout, memory);
}
