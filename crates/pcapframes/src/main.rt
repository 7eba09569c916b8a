#![tactic(auto)]
// Writes the UDP datagrams of a capture (pcap or pcapng) to one port as frames of RFC 4571: `pcapframes PORT [FILE]`, from standard input where no file is
// named. What is written is the library's; this program moves octets, and tells on standard error what it left out.
ghost use Rattle.std.specs.Prelude.{length};
ghost use Rattle.pcapframes_turns.specs.Turns.{Ended, Enough};

use capture_spec::format::MAX_ITEM;
use pcapframes_session::finish;
use pcapframes_session::told::{TOLD_ROOM, put_told};
use pcapframes_spec::session::Session;
use pcapframes_turns::{Extract, start};
use program::buffers::{failure_of, is_done};
use program::progress::is_watched;
use program::run::run_on;
use program::streams::{Sink, Source};
use program_arguments::failures::{Ends, report_failure};
use program_arguments::files::open_input;
use program_arguments::options::may_start;
use program_arguments::port::port_of;
use program_arguments::words::{WORD_ROOM, has_word, word_at};
use program_spec::buffers::Buffers;
use rtp_frames::MAX_FRAME;
use std::io::{Print, Stderr};

// Octets of the buffers: any item and more to read, and some frames that wait to be written together.
const INPUT_SIZE: usize = 2 * MAX_ITEM;

const OUT_SIZE: usize = 4 * MAX_FRAME;

// What the walk came to, and the buffers at the end, which say whether all frames were written.
#[derive(Clone, Copy)]
struct Outcome {
    session: Session,
    buffers: Buffers,
}

fn extract(
    from: &mut Source,
    to: &mut Sink,
    port: u16,
    watched: Option<Stderr>,
    input: &mut [u8],
    out: &mut [u8],
) -> Outcome
    requires { Enough (length input.old) (length out.old) }
    ensures { Ended port result.session input.new out.new result.buffers }
{
    let run = run_on(
        Extract { port },
        from,
        to,
        watched,
        u64::MAX,
        start(),
        input,
        &mut [],
        out,
    );
    let session = run.session;
    let buffers = run.buffers;
    Outcome {
        session: finish(session, buffers.end - buffers.at),
        buffers,
    }
}

// What was left out, and the refusal that ended the walk.
fn tell(err: Stderr, session: Session) {
    let mut told = [0u8; TOLD_ROOM];
    let end = put_told(&mut told, 0, session);
    let _ = err.write_all(&told[..end]);
}

fn port_told(rt: HostRuntime) -> Option<u16> {
    if !has_word(rt, 1) {
        return None;
    }
    let mut word = [0u8; WORD_ROOM];
    let length = word_at(rt, 1, &mut word);
    port_of(&word[..length])
}

// The walk in buffers of its own.
fn extract_frames(rt: HostRuntime, port: u16, from: &mut Source, to: &mut Sink) -> Outcome {
    let mut input = [0u8; INPUT_SIZE];
    let mut out = [0u8; OUT_SIZE];
    extract(from, to, port, is_watched(rt, true), &mut input, &mut out)
}

fn run(rt: HostRuntime, port: u16) {
    let Some(mut from) = open_input(rt, b"pcapframes", 2) else {
        return;
    };
    let mut to = Sink::standard(rt.stdout());
    let mut name = [0u8; WORD_ROOM];
    let length = word_at(rt, 2, &mut name);
    let outcome = extract_frames(rt, port, &mut from, &mut to);
    let session = outcome.session;
    let buffers = outcome.buffers;
    let failure = failure_of(buffers);
    let ends = Ends {
        source: &from,
        input: &name[..length],
        sink: &to,
        output: b"",
    };
    report_failure(rt.stderr(), b"pcapframes", failure, ends);
    if is_done(buffers) {
        tell(rt.stderr(), session);
    }
}

// Whether the work is to be done: not where an option asks for something else, nor where the arguments are too many.
fn starts(rt: HostRuntime) -> bool {
    may_start(
        rt,
        b"pcapframes",
        b"Usage: pcapframes PORT [FILE]\n\
          Writes the UDP datagrams to PORT of a capture (pcap or pcapng), FILE or standard input, as frames of RFC 4571.\n\
          \x20\x20--help     print this and end\n\
          \x20\x20--version  print the version and end\n\
          A file whose name begins with - is given as ./-x.\n",
        2,
    )
}

fn main(rt: HostRuntime) {
    if !starts(rt) {
        return;
    }
    match port_told(rt) {
        Some(number) => run(rt, number),
        None => {
            let _ = rt.stderr().write_all(
                b"pcapframes: PORT is a number from 1 to 65535, see --help\n",
            );
        }
    }
}
