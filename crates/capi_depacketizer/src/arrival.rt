// Fields from packets, over a state that the caller keeps as a row.
ghost use Rattle.capi_depacketizer.specs.Calls.{arrive, open_numbers, open_reply, rows_fit, state_arrived, state_opened};
ghost use Rattle.capi_state.specs.State.{state_in};
ghost use Rattle.wire_spec.specs.Bits.{overwrite};
ghost use Rattle.std.specs.Prelude.{◌≡◌};

use crate::answer::reply_arrival;
use capi_answer::layout::{LAST_LAYOUT, layout_of};
use capi_answer::length::{ANSWER_SIZE, LAYOUT_UNKNOWN, ROW_TOO_SHORT};
use capi_answer::row::{ACCEPTED, refuse};
use capi_state::state::{put_state, state_in};
use depacketizer::state::Depacketizer;
use wire_spec::refusal::Refusal;

// Numbers that a state needs.
const STATE_SIZE: usize = 15;

// Both rows are long enough.
fn rows_fit(state: usize, answer: usize) -> bool
    ensures { result ≡ rows_fit state answer }
{
    (STATE_SIZE <= state) & (ANSWER_SIZE <= answer)
}

// The state of a depacketizer just opened.
pub fn jibhotran_open(source: u32, payload_type: u8, state: &mut [u64], answer: &mut [u64]) -> u8
    ensures value { result ≡ (open_reply source payload_type state.old answer.old).number }
    ensures state_after { state.new ≡ overwrite (open_numbers source payload_type state.old answer.old) state.old }
    ensures answer_after { answer.new ≡ overwrite (open_reply source payload_type state.old answer.old).row answer.old }
    ensures state_after_2 { state_in state.new ≡ state_opened source payload_type state.old answer.old }
{
    if !rows_fit(state.len(), answer.len()) {
        return ROW_TOO_SHORT;
    }
    let opened = Depacketizer::open(source, payload_type);
    match opened {
        Err(refusal) => refuse(refusal, answer),
        Ok(depacketizer) => {
            put_state(depacketizer.state, state);
            ACCEPTED
        }
    }
}

// One arrival: the next state, the field's cells in the store, and what became of the packet.
pub fn jibhotran_arrive(
    layout: u8,
    state: &mut [u64],
    octets: &[u8],
    store: &mut [u16],
    answer: &mut [u64],
) -> u8
    ensures value { result ≡ (arrive layout state.old octets.now store.old answer.old).reply.number }
    ensures state_after { state.new ≡ overwrite (arrive layout state.old octets.now store.old answer.old).numbers state.old }
    ensures store_after { store.new ≡ (arrive layout state.old octets.now store.old answer.old).store }
    ensures answer_after { answer.new ≡ overwrite (arrive layout state.old octets.now store.old answer.old).reply.row answer.old }
    ensures state_after_2 { state_in state.new ≡ state_arrived layout state.old octets.now store.old answer.old }
{
    if !rows_fit(state.len(), answer.len()) {
        return ROW_TOO_SHORT;
    }
    if layout > LAST_LAYOUT {
        return LAYOUT_UNKNOWN;
    }
    let restored = state_in(state);
    match restored {
        None => refuse(
            Refusal {
                number: Refusal::STATE_UNSOUND,
                index: 0,
            },
            answer,
        ),
        Some(kept) => {
            let depacketizer = Depacketizer { state: kept };
            let arrival = depacketizer.arrive(layout_of(layout), octets, store);
            let next = arrival.state;
            let outcome = arrival.answer;
            put_state(next.state, state);
            reply_arrival(outcome, answer)
        }
    }
}
