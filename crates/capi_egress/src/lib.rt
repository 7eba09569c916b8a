#![tactic(auto)]
// The C boundary of the shared outlet (02, K10; include/jibhotran.h).
//
// A call returns 0 or a refusal's number; what it returns beside that goes to the caller's row of numbers,
// `answer`. The outlet's state is a row of the caller's too.
ghost use Rattle.std.specs.Prelude.{◌≡◌, ◌≤◌, length};
ghost use Rattle.wire_spec.specs.Bits.{overwrite};
ghost use Rattle.capi_answer.specs.Rows.{answer_size};
ghost use Rattle.capi_egress.specs.Calls.{offer, open_number, open_numbers, rows_fit, take, taken_reply};

use capi_answer::length::{ANSWER_SIZE, ROW_TOO_SHORT};
use capi_answer::row::{ACCEPTED, refuse};
use capi_egress_state::state::{is_state, put_channel, put_state, state_in};
use capi_state::row::put;
use egress_spec::state::HandedOut;
use wire_spec::refusal::Refusal;

// Numbers that a state needs.
const STATE_SIZE: usize = 145;

// Both rows are long enough.
fn rows_fit(state: usize, answer: usize) -> bool
    ensures { result ≡ rows_fit state answer }
{
    (STATE_SIZE <= state) & (ANSWER_SIZE <= answer)
}

// 64, where the numbers of a row are no state.
fn unsound() -> Refusal
    ensures { result ≡ record { number = 64; index = 0 } }
{
    Refusal {
        number: Refusal::OUTLET_UNSOUND,
        index: 0,
    }
}

// The state of an outlet that holds nothing.
pub fn jibhotran_outlet_open(state: &mut [u64]) -> u8
    ensures value { result ≡ open_number state.old }
    ensures state_after { state.new ≡ overwrite (open_numbers state.old) state.old }
{
    if state.len() < STATE_SIZE {
        return ROW_TOO_SHORT;
    }
    let opened = egress::open();
    put_state(opened, state);
    ACCEPTED
}

// Copies a packet into the memory, behind its channel's last.
pub fn jibhotran_outlet_offer(
    state: &mut [u64],
    channel: u8,
    packet: &[u8],
    memory: &mut [u8],
    answer: &mut [u64],
) -> u8
    ensures value { result ≡ (offer state.old channel packet.now memory.old answer.old).reply.number }
    ensures state_after { state.new ≡ overwrite (offer state.old channel packet.now memory.old answer.old).numbers state.old }
    ensures memory_after { memory.new ≡ (offer state.old channel packet.now memory.old answer.old).lent }
    ensures answer_after { answer.new ≡ overwrite (offer state.old channel packet.now memory.old answer.old).reply.row answer.old }
{
    if !rows_fit(state.len(), answer.len()) {
        return ROW_TOO_SHORT;
    }
    if !is_state(state) {
        return refuse(unsound(), answer);
    }
    let kept = state_in(state);
    let offered = egress::offer(kept, channel, packet, memory);
    let next = offered.state;
    let outcome = offered.answer;
    match outcome {
        Err(refusal) => refuse(refusal, answer),
        Ok(()) => {
            put_channel(next, channel as usize, state);
            ACCEPTED
        }
    }
}

// Accepts a take: the channel, and the octets of its packet.
fn accept_taken(channel: u8, octets: usize, answer: &mut [u64]) -> u8
    requires { answer_size ≤ length answer.old }
    ensures value { result ≡ (taken_reply channel octets).number }
    ensures answer_after { answer.new ≡ overwrite (taken_reply channel octets).row answer.old }
{
    let values = [channel as u64, octets as u64];
    put(&values, answer);
    ACCEPTED
}

// Hands out the packet whose turn it is, to the first octets of `out`.
pub fn jibhotran_outlet_take(
    state: &mut [u64],
    memory: &[u8],
    out: &mut [u8],
    answer: &mut [u64],
) -> u8
    ensures value { result ≡ (take state.old memory.now out.old answer.old).reply.number }
    ensures state_after { state.new ≡ overwrite (take state.old memory.now out.old answer.old).numbers state.old }
    ensures out_after { out.new ≡ (take state.old memory.now out.old answer.old).lent }
    ensures answer_after { answer.new ≡ overwrite (take state.old memory.now out.old answer.old).reply.row answer.old }
{
    if !rows_fit(state.len(), answer.len()) {
        return ROW_TOO_SHORT;
    }
    if !is_state(state) {
        return refuse(unsound(), answer);
    }
    let kept = state_in(state);
    let taken = egress::take(kept, memory, out);
    let next = taken.state;
    let outcome = taken.answer;
    match outcome {
        Err(refusal) => refuse(refusal, answer),
        Ok(HandedOut { channel, octets }) => {
            put_channel(next, channel as usize, state);
            accept_taken(channel, octets.0, answer)
        }
    }
}
