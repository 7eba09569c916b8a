#![tactic(auto)]
// Lists the packets and the fields of RTP packets in frames of RFC 4571 (01, "`fieldlist`"), from standard input or from the
// file that its argument names. The frames and the text are the library's; this program moves octets.
ghost use Rattle.std.specs.Prelude.{length};
ghost use Rattle.fieldlist_turns.specs.Turns.{Ended, Enough};

use fieldlist_session::session::FIELD_ROOM;
use fieldlist_turns::{Listing, close, start};
use program::buffers::failure_of;
use program::progress::is_watched;
use program::run::run_on;
use program::streams::{Sink, Source};
use program_arguments::failures::{Ends, report_failure};
use program_arguments::files::{file_at, layout_told, open_input};
use program_arguments::options::may_start;
use program_arguments::words::{WORD_ROOM, word_at};
use program_spec::buffers::{Buffers, Failure};
use rtp_frames::MAX_FRAME;
use std::io::Stderr;
use wire_spec::layout::Layout;
use wire_spec::limit::MAX_FIELD_CELLS;

// Octets of the buffers: some frames are read at once, and a field's text may wait while room is left for another's.
const INPUT_SIZE: usize = 4 * MAX_FRAME;

const TEXT_SIZE: usize = 2 * FIELD_ROOM;

// Lists the packets of `from`. The buffers at the end say whether the listing was written whole.
fn list(
    layout: Layout,
    from: &mut Source,
    to: &mut Sink,
    watched: Option<Stderr>,
    input: &mut [u8],
    store: &mut [u16],
    out: &mut [u8],
) -> Buffers
    requires { Enough (length input.old) (length store.old) (length out.old) }
    ensures { Ended layout store.old store.new out.new result }
{
    let started = start(layout, out);
    let turns = u64::MAX;
    let run = run_on(
        Listing, from, to, watched, turns, started, input, store, out,
    );
    close(to, run, input, out)
}

// Lists them in buffers of its own; what failed, if anything did.
fn list_file(rt: HostRuntime, layout: Layout, from: &mut Source, to: &mut Sink) -> Option<Failure> {
    let mut input = [0u8; INPUT_SIZE];
    let mut store = [0u16; MAX_FIELD_CELLS];
    let mut out = [0u8; TEXT_SIZE];
    let after = list(
        layout,
        from,
        to,
        is_watched(rt, true),
        &mut input,
        &mut store,
        &mut out,
    );
    failure_of(after)
}

// Whether the work is to be done: not where an option asks for something else, nor where the arguments are too many.
fn starts(rt: HostRuntime, layout: Layout) -> bool {
    may_start(
        rt,
        b"fieldlist",
        b"Usage: fieldlist [old] [FILE]\n\
          Lists the packets and the fields of a recorded stream, frames of RFC 4571 with RTP packets of RFC 8331,\n\
          from FILE or from standard input.\n\
          \x20\x20old        packets are laid out as in the drafts of 2015\n\
          \x20\x20--help     print this and end\n\
          \x20\x20--version  print the version and end\n\
          A file whose name begins with - is given as ./-x, one that is named old as ./old.\n",
        file_at(layout),
    )
}

fn main(rt: HostRuntime) {
    let layout = layout_told(rt);
    if !starts(rt, layout) {
        return;
    }
    let at = file_at(layout);
    let Some(mut from) = open_input(rt, b"fieldlist", at) else {
        return;
    };
    let mut to = Sink::standard(rt.stdout());
    let mut name = [0u8; WORD_ROOM];
    let length = word_at(rt, at, &mut name);
    let failure = list_file(rt, layout, &mut from, &mut to);
    let ends = Ends {
        source: &from,
        input: &name[..length],
        sink: &to,
        output: b"",
    };
    report_failure(rt.stderr(), b"fieldlist", failure, ends);
}
