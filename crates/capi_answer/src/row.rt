// A refusal in the row that a caller lends for what a call returns. It asks that the row is long enough.
ghost use Rattle.std.specs.Prelude.{◌≡◌, ◌≤◌, length};
ghost use Rattle.wire_spec.specs.Bits.{overwrite};
ghost use Rattle.capi_answer.specs.Rows.{answer_size, refused_reply};

use capi_state::row::put;
use wire_spec::refusal::Refusal;

// The number of a call that is accepted.
pub const ACCEPTED: u8 = 0;

// Gives a refusal: its index is the row's first number.
pub fn refuse(refusal: Refusal, answer: &mut [u64]) -> u8
    requires { answer_size ≤ length answer.old }
    ensures value { result ≡ (refused_reply refusal).number }
    ensures answer_after { answer.new ≡ overwrite (refused_reply refusal).row answer.old }
{
    let values = [refusal.index as u64];
    put(&values, answer);
    refusal.number
}
