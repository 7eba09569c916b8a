// What a program does between two items: it writes the text that waits, and reads more behind what is left. Each function asks that places lie within
// the buffers.
ghost use Rattle.std.specs.Prelude.{◌+◌, ◌-◌, ◌^◌, ◌<◌, ◌≤◌, ◌↔◌, ◌≡◌, IsTrue, length};
ghost use Rattle.std.specs.IoError.{error_kind};
ghost use Rattle.program_spec.specs.Buffers.{Flushed, InBounds, ReadMore, Refilled};
ghost use Rattle.program_spec.specs.Buffers.{advanced, begun, ended, failure_of, is_done};
ghost use Rattle.program_spec.specs.Run.{CanStep, Stepped};

use crate::streams::{Sink, Source};
use crate::window::move_to_front;
use program_spec::buffers::{Buffers, Failure, Step};
use std::io;
use std::io::ErrorKind;

// Nothing is read; so much text is to be written.
pub fn begin(filled: usize) -> Buffers
    ensures { result ≡ begun filled }
{
    Buffers {
        at: 0,
        end: 0,
        filled,
        open: true,
        failed: false,
    }
}

// Behind an item that was used, with its text.
fn advance(buffers: Buffers, used: usize, length: usize) -> Buffers
    requires { (buffers.at + used ≤ buffers.end) × (buffers.filled + length < 2 ^ 64) }
    ensures { result ≡ advanced buffers used length }
{
    Buffers {
        at: buffers.at + used,
        filled: buffers.filled + length,
        open: true,
        failed: false,
        ..buffers
    }
}

// Nothing more is to come; so much text is to be written.
pub fn finish(buffers: Buffers, filled: usize) -> Buffers
    ensures { result ≡ ended buffers filled }
{
    Buffers {
        filled,
        open: false,
        ..buffers
    }
}

// Writes the text that waits. Where that fails it still waits, and the run ends.
pub fn flush(to: &mut Sink, buffers: Buffers, out: &[u8]) -> Buffers
    requires { buffers.filled ≤ length out.now }
    ensures { Flushed buffers result }
{
    match to.write(&out[..buffers.filled]) {
        Ok(n) => Buffers {
            filled: buffers.filled - n,
            ..buffers
        },
        Err(_) => Buffers {
            open: false,
            failed: true,
            ..buffers
        },
    }
}

// Whether a signal interrupted a read that failed; it is then tried again.
pub fn is_interrupted(reason: &io::Error) -> bool
    ensures { IsTrue result ↔ error_kind reason.now ≡ ErrorKind.Interrupted }
{
    reason.kind() == ErrorKind::Interrupted
}

// Moves what is left to the front, and reads more behind it. There must be room, as a read without any is like one at the end.
fn read_more(from: &mut Source, buffers: Buffers, input: &mut [u8]) -> Buffers
    requires in_bounds { InBounds buffers (length input.old) buffers.filled }
    requires at_in_bounds { buffers.end - buffers.at < length input.old }
    ensures { ReadMore buffers input.old result input.new }
{
    let at = buffers.at;
    let end = buffers.end;
    move_to_front(&mut input[..end], at);
    let rest = end - at;
    match from.read(&mut input[rest..]) {
        Ok(n) => Buffers {
            at: 0,
            end: rest + n,
            open: n > 0,
            failed: false,
            ..buffers
        },
        Err(reason) => {
            let interrupted = is_interrupted(&reason);
            Buffers {
                at: 0,
                end: rest,
                open: interrupted,
                failed: !interrupted,
                ..buffers
            }
        }
    }
}

// Writes first, so that nothing waits for more input.
fn refill_to(
    from: &mut Source,
    to: &mut Sink,
    buffers: Buffers,
    input: &mut [u8],
    out: &[u8],
) -> Buffers
    requires in_bounds { InBounds buffers (length input.old) (length out.now) }
    requires at_in_bounds { buffers.end - buffers.at < length input.old }
    ensures { Refilled buffers input.old result input.new }
{
    let flushed = flush(to, buffers, out);
    if !flushed.open {
        return flushed;
    }
    read_more(from, flushed, input)
}

// What is done with an answer: an item's text waits, and the item is used; what waits is written, and more is read; or it is written, and the run goes on
// where there was no room, or else ends.
pub fn after_step(
    from: &mut Source,
    to: &mut Sink,
    buffers: Buffers,
    step: Step,
    input: &mut [u8],
    out: &[u8],
) -> Buffers
    requires in_bounds { InBounds buffers (length input.old) (length out.now) }
    requires can_step { CanStep step buffers (length input.old) (length out.now) }
    ensures { Stepped step buffers input.old result input.new }
{
    match step {
        Step::Short => refill_to(from, to, buffers, input, out),
        Step::Taken { used, length } => advance(buffers, used, length),
        Step::Over => flush(to, finish(buffers, buffers.filled), out),
        Step::Refused(_) => flush(to, buffers, out),
    }
}

// Whether the input has ended, nothing failed and all text is written.
pub fn is_done(buffers: Buffers) -> bool
    ensures { result ≡ is_done buffers }
{
    !(buffers.open | buffers.failed) & (buffers.filled == 0)
}

// Which call failed, if one did. What was read from or written to says why.
pub fn failure_of(buffers: Buffers) -> Option<Failure>
    ensures { result ≡ failure_of buffers }
{
    if !buffers.failed {
        return None;
    }
    if buffers.filled == 0 {
        return Some(Failure::Read);
    }
    Some(Failure::Write)
}
