// SDP format parameters, and whether a record is wanted.
ghost use Rattle.capi_parameters.specs.Calls.{sdp_pairs, sdp_read_reply, sdp_text, sdp_write_reply, vpid_of};
ghost use Rattle.anc_filter.specs.Wanted.{wanted_in, wanted_of};
ghost use Rattle.wire_spec.specs.Bits.{bit, overwrite};
ghost use Rattle.std.specs.Prelude.{◌≡◌};

use crate::answer::reply_reading;
use anc_filter::DidSdid;
use capi_answer::answer::reply_written;
use capi_answer::length::{ANSWER_SIZE, ROW_TOO_SHORT};
use sdp_spec::parameters::Parameters;

// Reads SDP format parameters, the pairs into octets, DID then SDID.
#[unsafe(no_mangle)]
pub extern "C" fn jibhotran_sdp_read(text: &[u8], pairs: &mut [u8], answer: &mut [u64]) -> u8
    ensures value { result ≡ (sdp_read_reply text.now pairs.old answer.old).number }
    ensures pairs_after { pairs.new ≡ sdp_pairs text.now pairs.old answer.old }
    ensures answer_after { answer.new ≡ overwrite (sdp_read_reply text.now pairs.old answer.old).row answer.old }
{
    if answer.len() < ANSWER_SIZE {
        return ROW_TOO_SHORT;
    }
    let reading = sdp_reader::read(text, pairs);
    reply_reading(reading, answer)
}

// A number up to the largest code is a VPID code; any other is none.
fn vpid_of(code: u16) -> Option<u8>
    ensures { result ≡ vpid_of code }
{
    if code <= Parameters::MAX_CODE {
        Some(code as u8)
    } else {
        None
    }
}

// Writes SDP format parameters.
#[unsafe(no_mangle)]
pub extern "C" fn jibhotran_sdp_write(
    pairs: &[u8],
    vpid: u16,
    out: &mut [u8],
    answer: &mut [u64],
) -> u8
    ensures value { result ≡ (sdp_write_reply pairs.now vpid out.old answer.old).number }
    ensures out_after { out.new ≡ sdp_text pairs.now vpid out.old answer.old }
    ensures answer_after { answer.new ≡ overwrite (sdp_write_reply pairs.now vpid out.old answer.old).row answer.old }
{
    if answer.len() < ANSWER_SIZE {
        return ROW_TOO_SHORT;
    }
    let written = sdp_writer::write(pairs, vpid_of(vpid), out);
    reply_written(written, answer)
}

// A yes is 1, and a no is 0.
fn flag(is: bool) -> u8
    ensures { result ≡ bit is }
{
    if is { 1 } else { 0 }
}

// 1 where a record of these numbers is wanted, and 0 where not.
#[unsafe(no_mangle)]
pub extern "C" fn jibhotran_wanted(did: u8, sdid: u8, pairs: &[u8]) -> u8
    ensures { result ≡ bit (wanted_in did sdid pairs.now) }
{
    flag(anc_filter::wanted(did, sdid, pairs))
}

// The same, the pairs lent as a list of pairs.
#[unsafe(no_mangle)]
pub extern "C" fn jibhotran_wanted_of(did: u8, sdid: u8, pairs: &[DidSdid]) -> u8
    ensures { result ≡ bit (wanted_of did sdid pairs.now) }
{
    flag(anc_filter::wanted_of(did, sdid, pairs))
}
