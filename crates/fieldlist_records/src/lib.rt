#![tactic(auto)]
// The line of a record (01, "`fieldlist`"), from its header and its words. A line of n words takes at most 20 octets for each of its 8 + n cells.
ghost use Rattle.std.specs.Prelude.{◌+◌, ◌*◌, ◌^◌, ◌≤◌, [], ◌≡◌, length};
ghost use Rattle.wire_spec.specs.Bits.{Below, bit};
ghost use Rattle.wire_spec.specs.Cells.{head_cells, read_list};
ghost use Rattle.wire_spec.specs.Result.{IsAccepted};
ghost use Rattle.wire_spec.specs.Words.{word_bits};
ghost use Rattle.anc_record.specs.Header.{record_of};
ghost use Rattle.anc_record.specs.Location.{line_number};
ghost use Rattle.text.specs.Put.{Put};
ghost use Rattle.fieldlist_records.specs.Records as lines;
ghost use Rattle.fieldlist_records.specs.Records.{cell_room};

use anc_record::header::Header;
use anc_record::location::Line;
use text::{put, put_labelled, put_octet, put_word};
use wire_words::octet::flag;

// C and the line.
fn put_line(out: &mut [u8], at: usize, c: bool, line: Line) -> usize
    requires { at + 28 ≤ length out.old }
    ensures put { Put out.old at (lines.line_text (bit c) (line_number line)) out.new result }
    ensures upper_bound { result ≤ at + 28 }
{
    let number = line.number() as u64;
    if c {
        return put_labelled(out, at, b" c line=", number);
    }
    put_labelled(out, at, b" y line=", number)
}

// S and StreamNum.
fn put_stream(out: &mut [u8], at: usize, s: bool, stream: u8) -> usize
    requires { at + 44 ≤ length out.old }
    ensures put { Put out.old at (lines.stream_text (bit s) stream) out.new result }
    ensures upper_bound { result ≤ at + 44 }
{
    let next = put_labelled(out, at, b" s=", flag(s) as u64);
    put_labelled(out, next, b"/", stream as u64)
}

// What stands before DID.
fn put_location(out: &mut [u8], at: usize, h: Header) -> usize
    requires { at + 97 ≤ length out.old }
    ensures put { Put out.old at (lines.location_text (record_of h [])) out.new result }
    ensures upper_bound { result ≤ at + 97 }
{
    let location = h.location;
    let line = location.line;
    let offset = location.offset;
    let next = put_line(out, at, h.c, line);
    let next = put_labelled(out, next, b" off=", offset.number() as u64);
    put_stream(out, next, h.s, h.stream)
}

// Each word takes four octets.
fn put_words(out: &mut [u8], at: usize, words: &[u16]) -> usize
    requires { Below (2 ^ word_bits) words.now × (at + 4 * length words.now ≤ length out.old) }
    ensures put { Put out.old at (lines.words_text words.now) out.new result }
    ensures value { result ≡ at + 4 * length words.now }
{
    let mut to = at;
    for word in words {
        to = put_word(out, to, *word);
    }
    to
}

// DID and SDID.
fn put_type(out: &mut [u8], at: usize, did: u8, sdid: u8) -> usize
    requires { at + 15 ≤ length out.old }
    ensures put { Put out.old at (lines.type_text did sdid) out.new result }
    ensures value { result ≡ at + 15 }
{
    let next = put_octet(out, at, b" did=", did);
    put_octet(out, next, b" sdid=", sdid)
}

// From DID to the last word.
fn put_data(out: &mut [u8], at: usize, h: Header, words: &[u16]) -> usize
    requires words_value { (h.words.0 ≡ length words.now) × Below (2 ^ word_bits) words.now }
    requires words_in_bounds { at + 43 + 4 * length words.now ≤ length out.old }
    ensures put { Put out.old at (lines.data_text (record_of h words.now)) out.new result }
    ensures upper_bound { result ≤ at + 43 + 4 * length words.now }
{
    let count = h.words;
    let next = put_type(out, at, h.did, h.sdid);
    let next = put_labelled(out, next, b" words=", count.0 as u64);
    let next = put_words(out, next, words);
    put(out, next, b"\n")
}

// The line of the record of a header and of words.
fn put_record(out: &mut [u8], at: usize, h: Header, words: &[u16]) -> usize
    requires words_value { (h.words.0 ≡ length words.now) × Below (2 ^ word_bits) words.now }
    requires words_in_bounds { at + cell_room * (head_cells + length words.now) ≤ length out.old }
    ensures put { Put out.old at (lines.record_text (record_of h words.now)) out.new result }
    ensures upper_bound { result ≤ at + cell_room * (head_cells + length words.now) }
{
    let next = put_location(out, at, h);
    put_data(out, next, h, words)
}

// The lines of all records of a list that was checked.
pub fn put_records(out: &mut [u8], at: usize, cells: &[u16]) -> usize
    requires { IsAccepted (read_list cells.now) × (at + cell_room * length cells.now ≤ length out.old) }
    ensures { Put out.old at (lines.list_text (read_list cells.now)) out.new result }
{
    let mut rest = cells;
    let mut to = at;
    // Kept as a while: how many cells a turn takes is read from them.
    while rest.len() > 0 {
        let Ok(h) = Header::at(rest, 0) else {
            return to;
        };
        let words = h.words;
        let end = Header::CELLS + (words.0 as usize);
        to = put_record(out, to, h, &rest[Header::CELLS..end]);
        rest = &rest[end..];
    }
    to
}
