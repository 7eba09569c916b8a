#![tactic(auto)]
// What `fielddiff` does between a read and a write (02, K14), and its whole run: turn after turn, each a turn of one of the files, the lines of a position, the
// lines of a record, or writing the text that waits. Each function asks that places lie within the buffers. `lread` and `rread` hold octets of the left and
// the right file, `lstore` and `rstore` the cells of a field of either.
ghost use Rattle.std.specs.Prelude.{◌≡◌, ◌+◌, ◌^◌, ◌<◌, ◌≤◌, length};
ghost use Rattle.program_spec.specs.Turns.{Stopped, max_turns};
ghost use Rattle.fielddiff_side.specs.Side.{opened};
ghost use Rattle.fielddiff_turn.specs.Turns.{At, Bounds, Ended, Enough, Now, Stands, Turned, at, started, text_room, turning};

use fielddiff_side::{Side, advance, is_reading};
use fielddiff_turn::{
    Phase, Run, TEXT_ROOM, close, flush, print_places, start, turn_records, with_left, with_right,
};
use program::progress::{is_watched, show};
use program::streams::{Sink, Source};
use program_arguments::failures::{fail_to_read, fail_to_write, told_reason};
use std::io::Stderr;
use wire_spec::limit::MAX_FIELD_CELLS;

const INPUT_SIZE: usize = 65536;

const TEXT_SIZE: usize = 2 * TEXT_ROOM;

// Before the lines of a position: a turn of a file that is being read, or these lines.
// Kept as parameters of both files: of a struct of `&mut` fields each function would have to say that every field holds the same reference still.
fn turn_places(
    left_from: &mut Source,
    right_from: &mut Source,
    run: Run,
    lread: &mut [u8],
    rread: &mut [u8],
    lstore: &mut [u16],
    rstore: &mut [u16],
    out: &mut [u8],
) -> Run
    requires bounds { Bounds run (length lread.old) (length rread.old) (length out.old) }
    requires enough { Enough (length lread.old) (length rread.old) (length lstore.old) (length rstore.old) (length out.old) }
    requires text_room_in_bounds { (run.filled + text_room ≤ length out.old) × (run.phase ≡ Phase.Places) × (run.position + 1 < 2 ^ 64) }
    ensures { Turned run lread.old rread.old lstore.old rstore.old out.old result lread.new rread.new lstore.new rstore.new out.new }
{
    let left = run.left;
    if is_reading(left) {
        return with_left(run, advance(left_from, left, lread, lstore));
    }
    let right = run.right;
    if is_reading(right) {
        return with_right(run, advance(right_from, right, rread, rstore));
    }
    print_places(run, out)
}

// One turn.
pub fn turn(
    left_from: &mut Source,
    right_from: &mut Source,
    to: &mut Sink,
    run: Run,
    lread: &mut [u8],
    rread: &mut [u8],
    lstore: &mut [u16],
    rstore: &mut [u16],
    out: &mut [u8],
) -> Run
    requires bounds { Bounds run (length lread.old) (length rread.old) (length out.old) }
    requires enough { Enough (length lread.old) (length rread.old) (length lstore.old) (length rstore.old) (length out.old) }
    requires position_bound { (run.position + 1 < 2 ^ 64) × ((n : Now) × Stands run lstore.old rstore.old n) }
    ensures { Turned run lread.old rread.old lstore.old rstore.old out.old result lread.new rread.new lstore.new rstore.new out.new }
{
    if out.len() - run.filled < TEXT_ROOM {
        return flush(to, run, out);
    }
    let phase = run.phase;
    match phase {
        Phase::Places => turn_places(
            left_from, right_from, run, lread, rread, lstore, rstore, out,
        ),
        Phase::Comparing(records) => turn_records(run, records, lstore, rstore, out),
        Phase::Done => flush(to, run, out),
    }
}

// `failed` lasts for one turn, so that a read that failed is reported once.
fn report_read(err: Stderr, side: Side, name: &[u8], from: &Source) {
    if side.failed {
        fail_to_read(err, b"fielddiff", name, told_reason(from.reason()));
    }
}

fn report_reads(
    err: Stderr,
    run: Run,
    left_name: &[u8],
    left_from: &Source,
    right_name: &[u8],
    right_from: &Source,
) {
    let left = run.left;
    let right = run.right;
    report_read(err, left, left_name, left_from);
    report_read(err, right, right_name, right_from);
}

// Turn after turn, until the list ends, a read fails in the middle of a file, or a write fails; a proved loop ends, so 2^64 - 1 at the most.
fn make_turns(
    left_from: &mut Source,
    right_from: &mut Source,
    to: &mut Sink,
    err: Stderr,
    lopen: bool,
    ropen: bool,
    watched: Option<Stderr>,
    left_name: &[u8],
    right_name: &[u8],
    lread: &mut [u8],
    rread: &mut [u8],
    lstore: &mut [u16],
    rstore: &mut [u16],
    out: &mut [u8],
) -> Run
    requires { Enough (length lread.old) (length rread.old) (length lstore.old) (length rstore.old) (length out.old) }
    ensures { (from : At) × (from.run ≡ started (opened lopen) (opened ropen)) × Stopped turning max_turns from (at result lread.new rread.new lstore.new rstore.new out.new) }
{
    let mut run = start(fielddiff_side::start(lopen), fielddiff_side::start(ropen));
    for made in 0..u64::MAX {
        run = turn(
            left_from, right_from, to, run, lread, rread, lstore, rstore, out,
        );
        let goes_on = run.open;
        show(made + 1, goes_on, watched);
        report_reads(err, run, left_name, left_from, right_name, right_from);
        if !goes_on {
            break;
        }
    }
    run
}

// Prints the differences of two files, each open for reading, or not open and read as empty. Where the run
// stands at the end says whether all was written.
pub fn compare_within(
    left_from: &mut Source,
    right_from: &mut Source,
    to: &mut Sink,
    err: Stderr,
    lopen: bool,
    ropen: bool,
    watched: Option<Stderr>,
    left_name: &[u8],
    right_name: &[u8],
    lread: &mut [u8],
    rread: &mut [u8],
    lstore: &mut [u16],
    rstore: &mut [u16],
    out: &mut [u8],
) -> Run
    requires { Enough (length lread.old) (length rread.old) (length lstore.old) (length rstore.old) (length out.old) }
    ensures { Ended lopen ropen lread.new rread.new lstore.new rstore.new out.new result }
{
    let run = make_turns(
        left_from, right_from, to, err, lopen, ropen, watched, left_name, right_name, lread, rread,
        lstore, rstore, out,
    );
    close(to, run, out)
}

// Prints the differences of two files of these names, each open for reading, or absent and read as empty. Text
// that still waits at the end is text whose write failed.
pub fn compare(
    rt: HostRuntime,
    left: &mut Source,
    right: &mut Source,
    left_name: &[u8],
    right_name: &[u8],
) {
    let mut lread = [0u8; INPUT_SIZE];
    let mut rread = [0u8; INPUT_SIZE];
    let mut lstore = [0u16; MAX_FIELD_CELLS];
    let mut rstore = [0u16; MAX_FIELD_CELLS];
    let mut out = [0u8; TEXT_SIZE];
    let mut to = Sink::standard(rt.stdout());
    let lopen = left.is_open();
    let ropen = right.is_open();
    let after = compare_within(
        left,
        right,
        &mut to,
        rt.stderr(),
        lopen,
        ropen,
        is_watched(rt, true),
        left_name,
        right_name,
        &mut lread,
        &mut rread,
        &mut lstore,
        &mut rstore,
        &mut out,
    );
    if after.filled > 0 {
        fail_to_write(rt.stderr(), b"fielddiff", b"", told_reason(to.reason()));
    }
}
