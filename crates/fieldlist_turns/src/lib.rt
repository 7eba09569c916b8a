#![tactic(auto)]
// What `fieldlist` does between a read and a write (01, "`fieldlist`"): it lists a frame, writes the text that waits, or reads more, as any program over
// items does (`program::run`); before the first frame, it puts the first line, and at the end the last ones.
ghost use Rattle.std.specs.Prelude.{◌≤◌, ◌≡◌, length};
ghost use Rattle.rtp_frames.specs.Frames.{max_frame};
ghost use Rattle.fieldlist_lines.specs.Room.{line_room};
ghost use Rattle.program_spec.specs.Buffers.{InBounds};
ghost use Rattle.fieldlist_turns.specs.Turns.{Closes, Started, octets_of, program};

use fieldlist_session::session::{Session, begin, finish, list_frame};
use program::buffers::{flush, is_done};
use program::run::{Run, TakesItems};
use program::streams::Sink;
use program_spec::buffers::{Buffers, Step};
use wire_spec::layout::Layout;
use wire_spec::refusal::Refusal;

// `fieldlist`, which takes frames, and carries the cells of a field in the store.
#[derive(Clone, Copy)]
pub struct Listing;

impl TakesItems for Listing {
    type Session = Session;

    ghost program = { λ it. program };

    ghost most = { λ it. max_frame };

    ghost carried = { λ it session cells. (session, cells) };

    ghost can_take = { λ it session cells. Unit {0} };

    fn take(self, session: &mut Session, octets: &[u8], store: &mut [u16], out: &mut [u8]) -> Step {
        let listed = list_frame(*session, octets, store, out);
        *session = listed.session;
        listed.step
    }
}

fn octets_of(text: Result<usize, Refusal>) -> usize
    ensures { result ≡ octets_of text }
{
    text.unwrap_or(0)
}

// The first line is put, and nothing is read; packets are told this layout.
pub fn start(layout: Layout, out: &mut [u8]) -> Run<Session>
    requires { line_room ≤ length out.old }
    ensures { Started layout out.old out.new result }
{
    let filled = octets_of(begin(out));
    Run {
        session: Session::Waiting(layout),
        buffers: program::buffers::begin(filled),
    }
}

// The last lines.
pub fn close(to: &mut Sink, run: Run<Session>, input: &[u8], out: &mut [u8]) -> Buffers
    requires in_bounds { InBounds run.buffers (length input.now) run.buffers.filled }
    requires line_room_in_bounds { line_room ≤ length out.old }
    ensures { Closes run input.now out.old result out.new }
{
    let session = run.session;
    let buffers = run.buffers;
    if !is_done(buffers) {
        return buffers;
    }
    let at = buffers.at;
    let end = buffers.end;
    let filled = octets_of(finish(session, &input[at..end], out));
    flush(to, program::buffers::finish(buffers, filled), out)
}
