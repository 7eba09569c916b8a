// What the calls return: a number, and the numbers that go to the caller's row. Each function asks that the
// row is long enough.
ghost use Rattle.std.specs.Prelude.{◌≤◌, length, ◌≡◌};
ghost use Rattle.capi_answer.specs.Rows.{answer_size};
ghost use Rattle.capi_depacketizer.specs.Rows.{arrival_reply, kind_reply, whole_row};
ghost use Rattle.wire_spec.specs.Bits.{overwrite};

use capi_answer::row::{ACCEPTED, refuse};
use capi_state::row::put;
use depacketizer_spec::state::{Answer, Field};

// What became of an arrival, as the first number of its answer.
const SKIPPED: u64 = 0;

const HELD: u64 = 1;

const MIXED: u64 = 2;

const OVERFULL: u64 = 3;

const WHOLE: u64 = 4;

// An arrival that completes no field.
fn accept_kind(kind: u64, answer: &mut [u64]) -> u8
    requires { answer_size ≤ length answer.old }
    ensures value { result ≡ (kind_reply kind).number }
    ensures answer_after { answer.new ≡ overwrite (kind_reply kind).row answer.old }
{
    let values = [kind, 0, 0, 0, 0, 0];
    put(&values, answer);
    ACCEPTED
}

// A whole field: timestamp, F, records, cells, packets.
fn put_whole(field: Field, answer: &mut [u64])
    requires { answer_size ≤ length answer.old }
    ensures { answer.new ≡ overwrite (whole_row field) answer.old }
{
    let timestamp = field.timestamp;
    let values = [
        WHOLE,
        timestamp.0 as u64,
        field.f as u64,
        field.records as u64,
        field.cells as u64,
        field.packets as u64,
    ];
    put(&values, answer);
}

// What became of an arrival.
pub(crate) fn reply_arrival(outcome: Answer, answer: &mut [u64]) -> u8
    requires { answer_size ≤ length answer.old }
    ensures value { result ≡ (arrival_reply outcome).number }
    ensures answer_after { answer.new ≡ overwrite (arrival_reply outcome).row answer.old }
{
    match outcome {
        Answer::Skipped => accept_kind(SKIPPED, answer),
        Answer::Held => accept_kind(HELD, answer),
        Answer::Mixed => accept_kind(MIXED, answer),
        Answer::Overfull => accept_kind(OVERFULL, answer),
        Answer::Whole(field) => {
            put_whole(field, answer);
            ACCEPTED
        }
        Answer::Refused(refusal) => refuse(refusal, answer),
    }
}
