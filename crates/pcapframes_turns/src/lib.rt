#![tactic(auto)]
// What `pcapframes` does between a read and a write: it takes an item of the capture, writes the frames that wait, or reads more, as any
// program over items does (`program::run`).
ghost use Rattle.std.specs.Prelude.{◌≡◌};
ghost use Rattle.capture_spec.specs.Numbers.{max_item};
ghost use Rattle.pcapframes_spec.specs.Session.{Countable, frame_walk};
ghost use Rattle.pcapframes_turns.specs.Turns.{started};

use pcapframes_session::{begin, take_item};
use pcapframes_spec::session::Session;
use program::run::{Run, TakesItems};
use program_spec::buffers::Step;

// `pcapframes` for this port, which takes the items of a capture, and needs no store.
#[derive(Clone, Copy)]
pub struct Extract {
    pub port: u16,
}

impl TakesItems for Extract {
    type Session = Session;

    ghost program = { λ it. frame_walk it.port };

    ghost most = { λ it. max_item };

    ghost carried = { λ it session cells. session };

    ghost can_take = { λ it session cells. Countable session };

    fn take(
        self,
        session: &mut Session,
        octets: &[u8],
        _store: &mut [u16],
        out: &mut [u8],
    ) -> Step {
        let reply = take_item(self.port, *session, octets, out);
        *session = reply.session;
        reply.step
    }
}

// Nothing is read, and nothing waits to be written.
pub fn start() -> Run<Session>
    ensures { result ≡ started }
{
    Run {
        session: begin(),
        buffers: program::buffers::begin(0),
    }
}
