// A program's run over the items of its input, whatever they are: turn after turn, each an item, or what must be done before the next.
ghost use Rattle.std.specs.Prelude.{true, ◌≡◌, ℕ, List, length};
ghost use Rattle.program_spec.specs.Buffers.{InBounds};
ghost use Rattle.program_spec.specs.Run.{Answers, Holds, Ready, Turned, at, turning};
ghost use Rattle.program_spec.specs.Turns.{Lasts, Stopped};
ghost use Rattle.program_spec.specs.Walk.{Program};

use crate::buffers::after_step;
use crate::progress::show;
use crate::streams::{Sink, Source};
use program_spec::buffers::{Buffers, Step};
use std::io::Stderr;

// What a program carries, and what it left in the buffers.
#[derive(Clone, Copy)]
pub struct Run<S> {
    pub session: S,
    pub buffers: Buffers,
}

// A program that takes item after item from the front of its input. A store of cells is lent to it, which it
// may carry from item to item.
pub trait TakesItems: Copy {
    type Session: Copy;

    // Which program it is, the octets of its longest item, and what it carries; and what it asks of that.
    ghost program: { Self → Program };

    ghost most: { Self → ℕ };

    ghost carried: { (it : Self) → Self.Session → List ℕ → (program it).State };

    ghost can_take: { Self → Self.Session → List ℕ → Type 0 };

    // The item at the front of the octets: its text goes to the first octets of `out`.
    fn take(
        self,
        session: &mut Self::Session,
        octets: &[u8],
        store: &mut [u16],
        out: &mut [u8],
    ) -> Step
        requires { can_take self session.old store.old }
        ensures { Answers (program self) (most self) (carried self session.old store.old) octets.now out.old result (carried self session.new store.new) out.new };
}

// Kept as parameters side by side: a struct of the lent parts needs a clause for each that it still lends the same octets.

// One item, or what must be done before the next.
pub fn turn<P: TakesItems>(
    it: P,
    from: &mut Source,
    to: &mut Sink,
    run: &mut Run<P::Session>,
    input: &mut [u8],
    store: &mut [u16],
    out: &mut [u8],
)
    requires in_bounds { InBounds run.old.buffers (length input.old) (length out.old) }
    requires holds { Holds (P.program it) (P.most it) (P.carried it run.old.session store.old) (length input.old) (length out.old) }
    requires can_take { P.can_take it run.old.session store.old }
    ensures { Turned (P.program it) (at (P.carried it run.old.session store.old) run.old.buffers input.old out.old) (at (P.carried it run.new.session store.new) run.new.buffers input.new out.new) }
{
    let buffers = run.buffers;
    let at = buffers.at;
    let end = buffers.end;
    let filled = buffers.filled;
    let step = it.take(&mut run.session, &input[at..end], store, &mut out[filled..]);
    run.buffers = after_step(from, to, buffers, step, input, out);
}

// Turn after turn, until the input ends, nothing more is taken, a read or a write fails, or so many turns are made: a proved loop ends, and
// nothing says that a stream does. If the work is watched (`is_watched`), a long run shows how many were made.
pub fn run_on<P: TakesItems>(
    it: P,
    from: &mut Source,
    to: &mut Sink,
    watched: Option<Stderr>,
    turns: u64,
    started: Run<P::Session>,
    input: &mut [u8],
    store: &mut [u16],
    out: &mut [u8],
) -> Run<P::Session>
    requires in_bounds { InBounds started.buffers (length input.old) (length out.old) }
    requires goes_on { started.buffers.«open» ≡ true }
    requires lasts { Lasts (turning (P.program it)) turns (at (P.carried it started.session store.old) started.buffers input.old out.old) (Ready (P.program it) (P.most it) (P.carried it) (P.can_take it) (length input.old) (length store.old) (length out.old)) }
    ensures { Stopped (turning (P.program it)) turns (at (P.carried it started.session store.old) started.buffers input.old out.old) (at (P.carried it result.session store.new) result.buffers input.new out.new) }
{
    let mut run = started;
    for made in 0..turns {
        turn(it, from, to, &mut run, input, store, out);
        let goes_on = run.buffers.open;
        show(made + 1, goes_on, watched);
        if !goes_on {
            break;
        }
    }
    run
}
