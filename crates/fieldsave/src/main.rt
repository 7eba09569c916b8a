#![tactic(auto)]
// Files the whole fields of RTP packets in frames of RFC 4571 as a field file (01, "Field file"): `fieldsave [old] FRAMES OUT`. The frames and the fields
// are the library's; this program moves octets.
ghost use Rattle.std.specs.Prelude.{length};
ghost use Rattle.fieldsave_turns.specs.Turns.{Ended, Enough};

use fieldsave_session::FIELD_ROOM;
use fieldsave_turns::{Filing, start};
use program::buffers::{failure_of, is_done};
use program::progress::is_watched;
use program::run::run_on;
use program::streams::{Sink, Source};
use program_arguments::failures::{Ends, fail, report_failure};
use program_arguments::files::{create_named, file_at, layout_told, open_named};
use program_arguments::options::{has_words, may_start};
use program_arguments::words::{WORD_ROOM, word_at};
use program_spec::buffers::{Buffers, Failure};
use rtp_frames::MAX_FRAME;
use std::io::{Print, Stderr};
use wire_spec::layout::Layout;
use wire_spec::limit::MAX_FIELD_CELLS;

// Octets of the buffers: some frames are read at once, and a field may wait while room is left for another.
const INPUT_SIZE: usize = 4 * MAX_FRAME;

const FILE_SIZE: usize = 2 * FIELD_ROOM;

// Octets that are left at the end of the input are a broken last frame.
fn tell_cut(err: Stderr, buffers: Buffers) {
    if is_done(buffers) {
        if buffers.at < buffers.end {
            let _ = err.write_all(b"the last frame is cut\n");
        }
    }
}

// Files the packets of `from` in `to`. The buffers at the end say whether the file was written whole.
fn file(
    layout: Layout,
    from: &mut Source,
    to: &mut Sink,
    watched: Option<Stderr>,
    input: &mut [u8],
    store: &mut [u16],
    out: &mut [u8],
) -> Buffers
    requires { Enough (length input.old) (length store.old) (length out.old) }
    ensures { Ended layout store.old store.new out.new result }
{
    let started = start(layout, out);
    let turns = u64::MAX;
    let run = run_on(Filing, from, to, watched, turns, started, input, store, out);
    run.buffers
}

// Files them in buffers of its own; what failed, if anything did.
fn file_frames(
    rt: HostRuntime,
    layout: Layout,
    from: &mut Source,
    to: &mut Sink,
) -> Option<Failure> {
    let mut input = [0u8; INPUT_SIZE];
    let mut store = [0u16; MAX_FIELD_CELLS];
    let mut out = [0u8; FILE_SIZE];
    let after = file(
        layout,
        from,
        to,
        is_watched(rt, false),
        &mut input,
        &mut store,
        &mut out,
    );
    tell_cut(rt.stderr(), after);
    failure_of(after)
}

// Some file systems report only here that a write has failed.
fn close_file(err: Stderr, to: &mut Sink, name: &[u8]) {
    if let Err(reason) = to.store() {
        fail(err, b"fieldsave", name, reason);
    }
}

// Whether the work is to be done: not where an option asks for something else, nor where there are too many arguments or too few.
fn starts(rt: HostRuntime, layout: Layout) -> bool {
    let words = file_at(layout) + 1;
    if !may_start(
        rt,
        b"fieldsave",
        b"Usage: fieldsave [old] FRAMES OUT\n\
          Files the whole fields of a recorded stream, frames of RFC 4571 with RTP packets of RFC 8331, in a new field file OUT.\n\
          \x20\x20old        packets are laid out as in the drafts of 2015\n\
          \x20\x20--help     print this and end\n\
          \x20\x20--version  print the version and end\n\
          A file whose name begins with - is given as ./-x, one that is named old as ./old.\n",
        words,
    ) {
        return false;
    }
    has_words(rt, b"fieldsave", words)
}

// Files the frames, and says what failed.
fn save(rt: HostRuntime, layout: Layout, mut from: Source, mut to: Sink) {
    let at = file_at(layout);
    let mut name = [0u8; WORD_ROOM];
    let length = word_at(rt, at, &mut name);
    let mut new_name = [0u8; WORD_ROOM];
    let new_length = word_at(rt, at + 1, &mut new_name);
    let failure = file_frames(rt, layout, &mut from, &mut to);
    let ends = Ends {
        source: &from,
        input: &name[..length],
        sink: &to,
        output: &new_name[..new_length],
    };
    report_failure(rt.stderr(), b"fieldsave", failure, ends);
    close_file(rt.stderr(), &mut to, &new_name[..new_length]);
}

fn main(rt: HostRuntime) {
    let layout = layout_told(rt);
    if !starts(rt, layout) {
        return;
    }
    let at = file_at(layout);
    let Some(from) = open_named(rt, b"fieldsave", at) else {
        return;
    };
    let Some(to) = create_named(rt, b"fieldsave", at + 1) else {
        return;
    };
    save(rt, layout, from, to);
}
