#![tactic(auto)]
// What `streamcheck` does between a read and a write (02, K12): it reports a frame, writes the text that waits, or reads more, as any
// program over items does (`program::run`); at the end it puts the last line.
ghost use Rattle.std.specs.Prelude.{◌≤◌, ◌≡◌, length};
ghost use Rattle.wire_spec.specs.Packet.{max_packet};
ghost use Rattle.rtp_frames.specs.Frames.{max_frame};
ghost use Rattle.program_spec.specs.Buffers.{InBounds};
ghost use Rattle.program_spec.specs.Run.{Closed, at};
ghost use Rattle.streamcheck_lines.specs.Lines.{lines_room};
ghost use Rattle.streamcheck_turns.specs.Turns.{octets_of, program, started};

use program::buffers::{flush, is_done};
use program::run::{Run, TakesItems};
use program::streams::Sink;
use program_spec::buffers::{Buffers, Step};
use streamcheck_session::session::{Session, begin, check_frame, finish};
use wire_spec::layout::Layout;
use wire_spec::refusal::Refusal;

// `streamcheck`, which takes frames; the store has the cells of one packet's records.
#[derive(Clone, Copy)]
pub struct Check;

impl TakesItems for Check {
    type Session = Session;

    ghost program = { λ it. program };

    ghost most = { λ it. max_frame };

    ghost carried = { λ it session cells. session };

    ghost can_take = { λ it session cells. max_packet ≤ length cells };

    fn take(self, session: &mut Session, octets: &[u8], store: &mut [u16], out: &mut [u8]) -> Step {
        let reported = check_frame(*session, octets, store, out);
        *session = reported.session;
        reported.step
    }
}

// Nothing is read, and nothing waits to be written; packets are told this layout.
pub fn start(layout: Layout) -> Run<Session>
    ensures { result ≡ started layout }
{
    Run {
        session: begin(layout),
        buffers: program::buffers::begin(0),
    }
}

fn octets_of(text: Result<usize, Refusal>) -> usize
    ensures { result ≡ octets_of text }
{
    text.unwrap_or(0)
}

// The last line, where the last frame is cut.
pub fn close(to: &mut Sink, run: Run<Session>, input: &[u8], out: &mut [u8]) -> Buffers
    requires in_bounds { InBounds run.buffers (length input.now) run.buffers.filled }
    requires lines_room_in_bounds { lines_room ≤ length out.old }
    ensures { Closed program (at run.session run.buffers input.now out.old) result out.new }
{
    let session = run.session;
    let buffers = run.buffers;
    if !is_done(buffers) {
        return buffers;
    }
    let at = buffers.at;
    let end = buffers.end;
    let filled = octets_of(finish(session.index, &input[at..end], out));
    flush(to, program::buffers::finish(buffers, filled), out)
}
