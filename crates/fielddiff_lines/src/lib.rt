#![tactic(auto)]
// The lines of two files side by side (02, K14, "Lines: .."): each function puts some to the octets that it is lent, and asks for the room that they can
// take. Nothing is put where nothing differs.
ghost use Rattle.std.specs.Prelude.{◌++◌, ◌≡◌, ◌+◌, ◌*◌, ◌≤◌, min, length};
ghost use Rattle.text.specs.Put.{Put};
ghost use Rattle.text.specs.Text.{decimal, decimal_most};
ghost use Rattle.fielddiff_spec.specs.Diff.{cell_line, cell_lines, differ};
ghost use Rattle.fielddiff_spec.specs.Text.{diff_text, sides_text};
ghost use Rattle.fielddiff_lines.specs.Room.{label_room, line_room};
ghost use Rattle.fielddiff_lines.specs.Places.{beside_end, beside_field, beside_refusal, differing, head_lines, place_lines};

use fieldfile_scan_spec::found::{Found, Place};
use text::{put, put_decimal, put_labelled, put_numbered};

// `L R` behind a label, and the line's end.
fn put_sides(out: &mut [u8], at: usize, label: &[u8], l: u64, r: u64) -> usize
    requires { at + length label.now + 2 * decimal_most + 2 ≤ length out.old }
    ensures put { Put out.old at (label.now ++ sides_text (decimal l) (decimal r)) out.new result }
    ensures upper_bound { result ≤ at + length label.now + 2 * decimal_most + 2 }
{
    let next = put_labelled(out, at, label, l);
    let next = put_labelled(out, next, b" ", r);
    put(out, next, b"\n")
}

// `I LABEL L R`, where the two numbers differ.
fn put_differing(out: &mut [u8], at: usize, i: u64, label: &[u8], l: u64, r: u64) -> usize
    requires { (at + line_room ≤ length out.old) × (length label.now ≤ label_room) }
    ensures put { Put out.old at (differing i label.now l r) out.new result }
    ensures upper_bound { result ≤ at + line_room }
{
    if l == r {
        return at;
    }
    let next = put_decimal(out, at, i);
    put_sides(out, next, label, l, r)
}

// `I J K L R`
fn put_cell(out: &mut [u8], at: usize, i: u64, j: u64, k: u64, l: u16, r: u16) -> usize
    requires { at + line_room ≤ length out.old }
    ensures put { Put out.old at (diff_text (differ (cell_line i j k) l r)) out.new result }
    ensures upper_bound { result ≤ at + line_room }
{
    if l == r {
        return at;
    }
    let next = put_decimal(out, at, i);
    let next = put_labelled(out, next, b" ", j);
    let next = put_labelled(out, next, b" ", k);
    put_sides(out, next, b" ", l as u64, r as u64)
}

// The lines of the record `j` of both fields at the position `i`, from its cells: as far as both go.
pub fn put_cells(out: &mut [u8], at: usize, i: u64, j: u64, left: &[u16], right: &[u16]) -> usize
    requires { at + line_room * min (length left.now) (length right.now) ≤ length out.old }
    ensures put { Put out.old at (diff_text (cell_lines i j left.now right.now)) out.new result }
    ensures upper_bound { result ≤ at + line_room * min (length left.now) (length right.now) }
{
    let mut to = at;
    for k in 0..left.len().min(right.len()) {
        to = put_cell(out, to, i, j, k as u64, left[k], right[k]);
    }
    to
}

// The lines of both fields but for those of their records.
fn put_heads(out: &mut [u8], at: usize, i: u64, l: Found, r: Found) -> usize
    requires { at + 3 * line_room ≤ length out.old }
    ensures put { Put out.old at (diff_text (head_lines i l r)) out.new result }
    ensures upper_bound { result ≤ at + 3 * line_room }
{
    let left_time = l.timestamp;
    let right_time = r.timestamp;
    let next = put_differing(out, at, i, b" ts ", left_time.0 as u64, right_time.0 as u64);
    let next = put_differing(out, next, i, b" f ", l.f as u64, r.f as u64);
    put_differing(
        out,
        next,
        i,
        b" records ",
        l.records as u64,
        r.records as u64,
    )
}

// `I refused - R`
fn put_right_refused(out: &mut [u8], at: usize, i: u64, number: u8) -> usize
    requires { at + line_room ≤ length out.old }
    ensures put { Put out.old at (diff_text (beside_end i (Place.Refused number))) out.new result }
    ensures upper_bound { result ≤ at + line_room }
{
    let next = put_decimal(out, at, i);
    let next = put_labelled(out, next, b" refused - ", number as u64);
    put(out, next, b"\n")
}

// `I refused L -`
fn put_left_refused(out: &mut [u8], at: usize, i: u64, number: u8) -> usize
    requires { at + line_room ≤ length out.old }
    ensures put { Put out.old at (diff_text (beside_refusal i number Place.Ended)) out.new result }
    ensures upper_bound { result ≤ at + line_room }
{
    let next = put_decimal(out, at, i);
    let next = put_labelled(out, next, b" refused ", number as u64);
    put(out, next, b" -\n")
}

// `I refused L R`
fn put_refused(out: &mut [u8], at: usize, i: u64, number: u8, other: u8) -> usize
    requires { at + line_room ≤ length out.old }
    ensures put { Put out.old at (diff_text (beside_refusal i number (Place.Refused other))) out.new result }
    ensures upper_bound { result ≤ at + line_room }
{
    let next = put_decimal(out, at, i);
    put_sides(out, next, b" refused ", number as u64, other as u64)
}

// The place of the right file beside a field of the left.
fn put_beside_field(out: &mut [u8], at: usize, i: u64, found: Found, right: Place) -> usize
    requires { at + 3 * line_room ≤ length out.old }
    ensures put { Put out.old at (diff_text (beside_field i found right)) out.new result }
    ensures upper_bound { result ≤ at + 3 * line_room }
{
    match right {
        Place::Field(other) => put_heads(out, at, i, found, other),
        Place::Ended => put_numbered(out, at, i, b" only left\n"),
        Place::Refused(number) => put_right_refused(out, at, i, number),
    }
}

// Beside the end of the left.
fn put_beside_end(out: &mut [u8], at: usize, i: u64, right: Place) -> usize
    requires { at + line_room ≤ length out.old }
    ensures put { Put out.old at (diff_text (beside_end i right)) out.new result }
    ensures upper_bound { result ≤ at + line_room }
{
    match right {
        Place::Field(_) => put_numbered(out, at, i, b" only right\n"),
        Place::Ended => at,
        Place::Refused(number) => put_right_refused(out, at, i, number),
    }
}

// Beside a refusal of the left.
fn put_beside_refusal(out: &mut [u8], at: usize, i: u64, number: u8, right: Place) -> usize
    requires { at + line_room ≤ length out.old }
    ensures put { Put out.old at (diff_text (beside_refusal i number right)) out.new result }
    ensures upper_bound { result ≤ at + line_room }
{
    match right {
        Place::Field(_) => put_left_refused(out, at, i, number),
        Place::Ended => put_left_refused(out, at, i, number),
        Place::Refused(other) => put_refused(out, at, i, number, other),
    }
}

// The lines of a position but for those of the records.
pub fn put_place(out: &mut [u8], at: usize, i: u64, left: Place, right: Place) -> usize
    requires { at + 3 * line_room ≤ length out.old }
    ensures put { Put out.old at (diff_text (place_lines i left right)) out.new result }
    ensures upper_bound { result ≤ at + 3 * line_room }
{
    match left {
        Place::Field(found) => put_beside_field(out, at, i, found, right),
        Place::Ended => put_beside_end(out, at, i, right),
        Place::Refused(number) => put_beside_refusal(out, at, i, number, right),
    }
}
