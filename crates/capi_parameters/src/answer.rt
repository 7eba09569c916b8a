// What the calls return: a number, and the numbers that go to the caller's row. Each function asks that the
// row is long enough.
ghost use Rattle.std.specs.Prelude.{◌≤◌, length, ◌≡◌};
ghost use Rattle.capi_answer.specs.Rows.{answer_size};
ghost use Rattle.capi_parameters.specs.Rows.{code_or0, has_code, parameters_reply, parameters_row};
ghost use Rattle.wire_spec.specs.Bits.{overwrite};

use capi_answer::row::{ACCEPTED, refuse};
use capi_state::row::put;
use sdp_spec::parameters::Parameters;
use wire_spec::refusal::Refusal;

// 1 where there is a code.
fn has_code(vpid: Option<u8>) -> u64
    ensures { result ≡ has_code vpid }
{
    match vpid {
        Some(_) => 1,
        None => 0,
    }
}

// The code, or 0 where there is none.
fn code_or_0(vpid: Option<u8>) -> u64
    ensures { result ≡ code_or0 vpid }
{
    match vpid {
        Some(code) => code as u64,
        None => 0,
    }
}

// Pairs, whether there is a VPID code, the code.
fn put_parameters(parameters: Parameters, answer: &mut [u64])
    requires { answer_size ≤ length answer.old }
    ensures { answer.new ≡ overwrite (parameters_row parameters) answer.old }
{
    let vpid = parameters.vpid;
    let values = [parameters.pairs as u64, has_code(vpid), code_or_0(vpid)];
    put(&values, answer);
}

// A text of parameters read.
pub(crate) fn reply_reading(reading: Result<Parameters, Refusal>, answer: &mut [u64]) -> u8
    requires { answer_size ≤ length answer.old }
    ensures value { result ≡ (parameters_reply reading).number }
    ensures answer_after { answer.new ≡ overwrite (parameters_reply reading).row answer.old }
{
    match reading {
        Err(refusal) => refuse(refusal, answer),
        Ok(parameters) => {
            put_parameters(parameters, answer);
            ACCEPTED
        }
    }
}
