// What is told of a capture when it has ended: what was left out, and the refusal that ended the walk. The functions ask for room for what they may put.
ghost use Rattle.std.specs.Prelude.{◌+◌, ◌≤◌, length};
ghost use Rattle.text.specs.Put.{Put};
ghost use Rattle.pcapframes_spec.specs.Told.{labels_room, left_out_text, line_room, line_text, told_room, told_text};

use pcapframes_spec::session::Session;
use text::{put, put_labelled};

// Octets that all of it may take.
pub const TOLD_ROOM: usize = 112;

// Two numbers, each behind its label, on a line.
fn put_line(
    out: &mut [u8],
    at: usize,
    before: &[u8],
    first: u64,
    between: &[u8],
    second: u64,
) -> usize
    requires { (length before.now + length between.now ≤ labels_room) × (at + line_room ≤ length out.old) }
    ensures put { Put out.old at (line_text before.now first between.now second) out.new result }
    ensures upper_bound { result ≤ at + line_room }
{
    let next = put_labelled(out, at, before, first);
    let last = put_labelled(out, next, between, second);
    put(out, last, b"\n")
}

// `fragments=1 cut=0`, where there were any of either.
fn put_left_out(out: &mut [u8], at: usize, fragments: u64, cut: u64) -> usize
    requires { at + line_room ≤ length out.old }
    ensures put { Put out.old at (left_out_text fragments cut) out.new result }
    ensures upper_bound { result ≤ at + line_room }
{
    if (fragments > 0) | (cut > 0) {
        return put_line(out, at, b"fragments=", fragments, b" cut=", cut);
    }
    at
}

// All of it; `refused 81 3` is a refusal's number, and the packets before it.
pub fn put_told(out: &mut [u8], at: usize, session: Session) -> usize
    requires { at + told_room ≤ length out.old }
    ensures put { Put out.old at (told_text session) out.new result }
    ensures upper_bound { result ≤ at + told_room }
{
    let next = put_left_out(out, at, session.fragments, session.cut);
    let refusal = session.refusal;
    match refusal {
        None => next,
        Some(number) => put_line(out, next, b"refused ", number as u64, b" ", session.packets),
    }
}
