// What calls of several kinds return: one size. Each function asks that the row is long enough.
ghost use Rattle.std.specs.Prelude.{◌≤◌, length, ◌≡◌};
ghost use Rattle.capi_answer.specs.Rows.{answer_size, size_reply, written_reply};
ghost use Rattle.wire_spec.specs.Bits.{overwrite};

use crate::row::{ACCEPTED, refuse};
use capi_state::row::put;
use wire_spec::count::OctetCount;
use wire_spec::refusal::Refusal;

// Accepts a call that returns one size.
pub fn accept_size(size: usize, answer: &mut [u64]) -> u8
    requires { answer_size ≤ length answer.old }
    ensures value { result ≡ (size_reply size).number }
    ensures answer_after { answer.new ≡ overwrite (size_reply size).row answer.old }
{
    let values = [size as u64];
    put(&values, answer);
    ACCEPTED
}

// What a writer answers: how many octets, or the refusal.
pub fn reply_written(written: Result<OctetCount, Refusal>, answer: &mut [u64]) -> u8
    requires { answer_size ≤ length answer.old }
    ensures value { result ≡ (written_reply written).number }
    ensures answer_after { answer.new ≡ overwrite (written_reply written).row answer.old }
{
    match written {
        Err(refusal) => refuse(refusal, answer),
        Ok(octets) => accept_size(octets.0, answer),
    }
}
