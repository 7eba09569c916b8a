#![tactic(auto)]
// The lines of `fieldlist` (01, "`fieldlist`"), but for those of records: each function puts one to the octets that it is lent, and asks for the room
// that its line can take.
ghost use Rattle.std.specs.Prelude.{◌+◌, ◌*◌, ◌≤◌, length, ◌≡◌, min};
ghost use Rattle.text.specs.Put.{Put};
ghost use Rattle.fieldlist_lines.specs.Lines as lines;
ghost use Rattle.fieldlist_lines.specs.Room.{counts_room, line_room};
ghost use Rattle.fieldlist_records.specs.Records.{cell_room};

use anc_writer::check::{Listed, check_list};
use depacketizer_spec::state::{Answer, Field};
use fieldlist_records::put_records;
use text::{put, put_decimal, put_labelled, put_numbered};
use wire_spec::layout::Layout;
use wire_spec::refusal::Refusal;

// `8 whole ts=2501 f=3 records=1`
fn put_whole(out: &mut [u8], number: u64, field: Field) -> usize
    requires { line_room ≤ length out.old }
    ensures put { Put out.old 0 (lines.whole_text number field) out.new result }
    ensures upper_bound { result ≤ line_room }
{
    let timestamp = field.timestamp;
    let next = put_decimal(out, 0, number);
    let next = put_labelled(out, next, b" whole ts=", timestamp.0 as u64);
    let next = put_labelled(out, next, b" f=", field.f as u64);
    let next = put_labelled(out, next, b" records=", field.records as u64);
    put(out, next, b"\n")
}

fn least(a: usize, b: usize) -> usize
    ensures { result ≡ min a b }
{
    if a < b { a } else { b }
}

// A whole field, with its records.
fn put_field(out: &mut [u8], number: u64, field: Field, store: &[u16]) -> usize
    requires { line_room + cell_room * length store.now ≤ length out.old }
    ensures { Put out.old 0 (lines.field_text number field store.now) out.new result }
{
    let next = put_whole(out, number, field);
    let end = least(field.cells, store.len());
    let listed = check_list(Layout::Rfc8331, &store[..end]);
    let Ok(
        Listed {
            count: _,
            octets: _,
        },
    ) = listed
    else {
        return next;
    };
    put_records(out, next, &store[..end])
}

// `refused 2 0`
pub fn put_refused(out: &mut [u8], refusal: Refusal) -> usize
    requires { line_room ≤ length out.old }
    ensures { Put out.old 0 (lines.refused_text refusal) out.new result }
{
    let next = put_labelled(out, 0, b"refused ", refusal.number as u64);
    let next = put_labelled(out, next, b" ", refusal.index as u64);
    put(out, next, b"\n")
}

// Refusal 32 is `late`.
fn put_refusal(out: &mut [u8], number: u64, refusal: Refusal) -> usize
    requires { line_room ≤ length out.old }
    ensures { Put out.old 0 (lines.refusal_text number refusal) out.new result }
{
    if refusal.number == Refusal::LATE {
        return put_numbered(out, 0, number, b" late\n");
    }
    put_refused(out, refusal)
}

// The answer to a packet of this number, over the store as it then is.
pub fn put_answer(out: &mut [u8], number: u64, answer: Answer, store: &[u16]) -> usize
    requires { line_room + cell_room * length store.now ≤ length out.old }
    ensures { Put out.old 0 (lines.answer_text number answer store.now) out.new result }
{
    match answer {
        Answer::Skipped => put_numbered(out, 0, number, b" skipped\n"),
        Answer::Held => put_numbered(out, 0, number, b" held\n"),
        Answer::Mixed => put_numbered(out, 0, number, b" mixed\n"),
        Answer::Overfull => put_numbered(out, 0, number, b" overfull\n"),
        Answer::Whole(field) => put_field(out, number, field, store),
        Answer::Refused(refusal) => put_refusal(out, number, refusal),
    }
}

// `fresh=3 late=1 missing=1`
pub fn put_counts(out: &mut [u8], at: usize, fresh: u64, late: u64, missing: u64) -> usize
    requires { at + counts_room ≤ length out.old }
    ensures { Put out.old at (lines.counts_text fresh late missing) out.new result }
{
    let next = put_labelled(out, at, b"fresh=", fresh);
    let next = put_labelled(out, next, b" late=", late);
    let next = put_labelled(out, next, b" missing=", missing);
    put(out, next, b"\n")
}
