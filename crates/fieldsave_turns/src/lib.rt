#![tactic(auto)]
// What `fieldsave` does between a read and a write: it files a frame, writes the octets that wait, or reads more, as any program
// over items does (`program::run`); before the first frame, it puts the file's head.
ghost use Rattle.std.specs.Prelude.{◌≤◌, length};
ghost use Rattle.fieldsave_session.specs.Filing.{field_room};
ghost use Rattle.rtp_frames.specs.Frames.{max_frame};
ghost use Rattle.fieldsave_turns.specs.Turns.{Started, program};

use fieldfile_writer::begin;
use fieldlist_session::session::Session;
use fieldsave_session::{file_frame, octets_of};
use program::run::{Run, TakesItems};
use program_spec::buffers::Step;
use wire_spec::layout::Layout;

// `fieldsave`, which takes frames, and carries the cells of a field in the store.
#[derive(Clone, Copy)]
pub struct Filing;

impl TakesItems for Filing {
    type Session = Session;

    ghost program = { λ it. program };

    ghost most = { λ it. max_frame };

    ghost carried = { λ it session cells. (session, cells) };

    ghost can_take = { λ it session cells. Unit {0} };

    fn take(self, session: &mut Session, octets: &[u8], store: &mut [u16], out: &mut [u8]) -> Step {
        let filed = file_frame(*session, octets, store, out);
        *session = filed.session;
        filed.step
    }
}

// The file's first octets are put, and nothing is read; packets are told this layout.
pub fn start(layout: Layout, out: &mut [u8]) -> Run<Session>
    requires { field_room ≤ length out.old }
    ensures { Started layout out.old out.new result }
{
    let filled = octets_of(begin(out));
    Run {
        session: Session::Waiting(layout),
        buffers: program::buffers::begin(filled),
    }
}
