#![tactic(auto)]
// SDP format parameters written as a text (01, "SDP parameters"): its size found first, then its items put one behind the other.
//
// `write` is the entry point: it takes any octets and any VPID_Code. A refusal leaves the octets to write to as they were.
ghost use Rattle.std.specs.Prelude.{◌≡◌, ◌+◌, ◌*◌, ◌%◌, ◌<◌, ◌≤◌, length};
ghost use Rattle.text.specs.Put.{Put};
ghost use Rattle.text.specs.Text.{decimal};
ghost use Rattle.sdp_spec.specs.Text.{max_pairs};
ghost use Rattle.sdp_spec.specs.Writing.{code_text, code_texts, joined, pair_text, pair_texts, separated, text_of};
ghost use Rattle.sdp_writer.specs.Entry.{write_leaves, write_returns};
ghost use Rattle.sdp_writer.specs.Parts.{following, separator};

use sdp_spec::parameters::Parameters;
use text::{put, put_decimal, put_octet};
use wire_spec::count::OctetCount;
use wire_spec::refusal::{Refusal, refuse};

// Octets of `DID_SDID={0xhh,0xhh}` with its `;`, and of `VPID_Code=` with its `;`.
const SEPARATED_PAIR_OCTETS: usize = 21;

const SEPARATED_NAME_OCTETS: usize = 11;

// Puts `DID_SDID={0xhh,0xhh}`.
fn put_pair(out: &mut [u8], at: usize, did: u8, sdid: u8) -> usize
    requires { at + length (pair_text did sdid) ≤ length out.old }
    ensures { Put out.old at (pair_text did sdid) out.new result }
{
    let behind_did = put_octet(out, at, b"DID_SDID={0x", did);
    let behind_sdid = put_octet(out, behind_did, b",0x", sdid);
    put(out, behind_sdid, b"}")
}

// Puts `VPID_Code=` and the code. The digits are put by themselves first: `put_decimal` wants room for 20.
fn put_code(out: &mut [u8], at: usize, code: u8) -> usize
    requires { at + length (code_text code) ≤ length out.old }
    ensures { Put out.old at (code_text code) out.new result }
{
    let mut digits = [0u8; 20];
    let count = put_decimal(&mut digits, 0, code as u64);
    let behind_name = put(out, at, b"VPID_Code=");
    put(out, behind_name, &digits[..count])
}

// Puts `;` behind the first `at` octets of a text, where there are any.
fn put_separator(out: &mut [u8], at: usize) -> usize
    requires { at + length (separator at) ≤ length out.old }
    ensures { Put out.old at (separator at) out.new result }
{
    if at == 0 {
        return 0;
    }
    put(out, at, b";")
}

// Puts the items of pairs at the start.
fn put_pairs(out: &mut [u8], pairs: &[u8]) -> usize
    requires pairs_len { length pairs.now % 2 ≡ 0 }
    requires pairs_in_bounds { length (joined (pair_texts pairs.now)) ≤ length out.old }
    ensures { Put out.old 0 (joined (pair_texts pairs.now)) out.new result }
{
    let mut to = 0;
    for k in 0..pairs.len() / 2 {
        let start = put_separator(out, to);
        to = put_pair(out, start, pairs[2 * k], pairs[2 * k + 1]);
    }
    to
}

// Puts the item of a VPID code, where there is one, behind the first `at` octets of a text.
fn put_vpid(out: &mut [u8], at: usize, vpid: Option<u8>) -> usize
    requires { at + length (following at (code_texts vpid)) ≤ length out.old }
    ensures { Put out.old at (following at (code_texts vpid)) out.new result }
{
    match vpid {
        None => at,
        Some(code) => {
            let start = put_separator(out, at);
            put_code(out, start, code)
        }
    }
}

// Octets of a number without leading zeros.
fn decimal_size(n: u8) -> usize
    ensures { result ≡ length (decimal n) }
{
    if n < 10 {
        return 1;
    }
    if n < 100 {
        return 2;
    }
    3
}

// Octets of the item of a VPID code with its `;`.
fn code_size(vpid: Option<u8>) -> usize
    ensures { result ≡ length (separated (code_texts vpid)) }
{
    match vpid {
        None => 0,
        Some(code) => SEPARATED_NAME_OCTETS + decimal_size(code),
    }
}

// Octets of a text: those of its items, and a `;` less than there are items.
fn text_size(pairs: &[u8], vpid: Option<u8>) -> usize
    requires { (length pairs.now % 2 ≡ 0) × (length pairs.now ≤ 2 * max_pairs) }
    ensures { result ≡ length (text_of (record { pairs = pairs.entry.now; vpid = vpid })) }
{
    let size = SEPARATED_PAIR_OCTETS * (pairs.len() / 2) + code_size(vpid);
    if size == 0 {
        return 0;
    }
    size - 1
}

// Writes pairs, DID then SDID, and a VPID code as a text to the first octets of `out`.
pub fn write(pairs: &[u8], vpid: Option<u8>, out: &mut [u8]) -> Result<OctetCount, Refusal>
    ensures value { result ≡ write_returns pairs.now vpid out.old }
    ensures out_after { out.new ≡ write_leaves pairs.now vpid out.old }
{
    if pairs.len() % 2 != 0 {
        return refuse(Refusal::ITEM_MALFORMED);
    }
    if Parameters::MAX_PAIRS < pairs.len() / 2 {
        return refuse(Refusal::TOO_MANY_PAIRS);
    }
    let size = text_size(pairs, vpid);
    if out.len() < size {
        return refuse(Refusal::TEXT_ROOM_TOO_SMALL);
    }
    let to = put_pairs(out, pairs);
    let end = put_vpid(out, to, vpid);
    Ok(OctetCount(end))
}
