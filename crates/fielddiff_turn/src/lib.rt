#![tactic(auto)]
// Parts of a turn of `fielddiff` (02, K14): the lines of a position, the lines of a record, or writing the text that waits. Each function asks that places lie
// within the buffers, and that there is room for what it puts.
ghost use Rattle.std.specs.Prelude.{false, ◌≡◌, ◌+◌, ◌^◌, ◌<◌, ◌≤◌, min, length};
ghost use Rattle.text.specs.Put.{Put};
ghost use Rattle.fielddiff_spec.specs.Diff.{cell_lines};
ghost use Rattle.fielddiff_spec.specs.Text.{diff_text};
ghost use Rattle.fielddiff_lines.specs.Places.{place_lines};
ghost use Rattle.fielddiff_side.specs.Side.{place_of};
ghost use Rattle.fielddiff_turn.specs.Turns.{Closed, Here, Now, RunFlushed, Stands, StillTurned, behind_record, beside_end, beside_field, cells_here, is_over, is_stuck, phase_after, places_done, record_end, started, text_room, with_left, with_phase, with_right};

use anc_record::header::Header;
use fielddiff_lines::{put_cells, put_place};
use fielddiff_side::{Side, next, place_of};
use fieldfile_scan_spec::found::{Found, Place};
use program::buffers::begin;
use program::streams::Sink;

// The most user data words of a record: Data_Count carries an eight-bit number.
const MAX_WORDS: usize = 255;

// Room for the lines of a record, the most that a turn prints: one of up to five numbers for each of its cells.
pub const LINE_ROOM: usize = 105;

pub const TEXT_ROOM: usize = LINE_ROOM * (Header::CELLS + MAX_WORDS);

// Where the records of two fields at a position are compared: the record's index, how many both have, and where its cells stand in either store.
#[derive(Clone, Copy)]
pub struct Records {
    pub position: u64,
    pub index: usize,
    pub count: usize,
    pub left: usize,
    pub right: usize,
}

#[derive(Clone, Copy)]
pub enum Phase {
    Places,
    Comparing(Records),
    Done,
}

#[derive(Clone, Copy)]
pub struct Run {
    pub left: Side,
    pub right: Side,
    // The position that is compared next.
    pub position: u64,
    pub phase: Phase,
    pub filled: usize,
    // Whether there may be more.
    pub open: bool,
}

// Writes the text that waits. Where that fails it still waits, and the run ends.
pub fn flush(to: &mut Sink, run: Run, out: &[u8]) -> Run
    requires { run.filled ≤ length out.now }
    ensures { RunFlushed run result }
{
    let text = program::buffers::flush(to, begin(run.filled), out);
    Run {
        filled: text.filled,
        open: run.open & text.open,
        ..run
    }
}

fn least(a: usize, b: usize) -> usize
    ensures { result ≡ min a b }
{
    if a < b { a } else { b }
}

// What follows the lines of a position, where the left file has a field.
fn beside_field(position: u64, found: Found, right: Place) -> Phase
    ensures { result ≡ beside_field position found right }
{
    match right {
        Place::Field(other) => Phase::Comparing(Records {
            position,
            index: 0,
            count: least(found.records, other.records),
            left: 0,
            right: 0,
        }),
        Place::Ended => Phase::Places,
        Place::Refused(_) => Phase::Done,
    }
}

// Where it has ended.
fn beside_end(right: Place) -> Phase
    ensures { result ≡ beside_end right }
{
    match right {
        Place::Field(_) => Phase::Places,
        Place::Ended => Phase::Done,
        Place::Refused(_) => Phase::Done,
    }
}

fn phase_after(position: u64, left: Place, right: Place) -> Phase
    ensures { result ≡ phase_after position left right }
{
    match left {
        Place::Field(found) => beside_field(position, found, right),
        Place::Ended => beside_end(right),
        Place::Refused(_) => Phase::Done,
    }
}

fn is_over(phase: Phase) -> bool
    ensures { result ≡ is_over phase }
{
    match phase {
        Phase::Places => false,
        Phase::Comparing(_) => false,
        Phase::Done => true,
    }
}

// The lines of a position but for those of the records.
pub fn print_places(run: Run, out: &mut [u8]) -> Run
    requires { (run.filled + text_room ≤ length out.old) × (run.position + 1 < 2 ^ 64) }
    ensures put { Put out.old run.filled (diff_text (place_lines run.position (place_of run.left.standing) (place_of run.right.standing))) out.new result.filled }
    ensures value { result ≡ places_done run result.filled }
{
    let left = run.left;
    let right = run.right;
    let left_place = place_of(left);
    let right_place = place_of(right);
    let filled = put_place(out, run.filled, run.position, left_place, right_place);
    let phase = phase_after(run.position, left_place, right_place);
    Run {
        left: next(left),
        right: next(right),
        position: run.position + 1,
        phase,
        filled,
        open: !is_over(phase),
    }
}

// The place behind the record at `at`.
fn record_end(store: &[u16], at: usize) -> usize
    requires { Here store.now at }
    ensures { result ≡ record_end store.now at }
{
    at + Header::CELLS + (store[at + Header::COUNT_CELL] as usize)
}

fn with_phase(run: Run, phase: Phase, filled: usize) -> Run
    ensures { result ≡ with_phase run phase filled }
{
    Run {
        phase,
        filled,
        open: true,
        ..run
    }
}

// The lines of the next record of both.
fn print_record(run: Run, records: Records, left: &[u16], right: &[u16], out: &mut [u8]) -> Run
    requires text_room_in_bounds { (run.filled + text_room ≤ length out.old) × (records.index + 1 < 2 ^ 64) }
    requires here { Here left.now records.left × Here right.now records.right }
    ensures put { Put out.old run.filled (diff_text (cell_lines records.position records.index (cells_here left.now records.left) (cells_here right.now records.right))) out.new result.filled }
    ensures value { result ≡ with_phase run (Phase.Comparing (behind_record records left.now right.now)) result.filled }
{
    let left_at = records.left;
    let right_at = records.right;
    let left_end = record_end(left, left_at);
    let right_end = record_end(right, right_at);
    let filled = put_cells(
        out,
        run.filled,
        records.position,
        records.index as u64,
        &left[left_at..left_end],
        &right[right_at..right_end],
    );
    let behind = Records {
        index: records.index + 1,
        left: left_end,
        right: right_end,
        ..records
    };
    with_phase(run, Phase::Comparing(behind), filled)
}

pub fn with_left(run: Run, left: Side) -> Run
    ensures { result ≡ with_left run left }
{
    Run {
        left,
        phase: Phase::Places,
        open: !(left.failed & left.more),
        ..run
    }
}

pub fn with_right(run: Run, right: Side) -> Run
    ensures { result ≡ with_right run right }
{
    Run {
        right,
        phase: Phase::Places,
        open: !(right.failed & right.more),
        ..run
    }
}

// Between the records of two fields: the next one, or on to the next position.
pub fn turn_records(run: Run, records: Records, left: &[u16], right: &[u16], out: &mut [u8]) -> Run
    requires text_room_in_bounds { (run.filled + text_room ≤ length out.old) × (run.phase ≡ Phase.Comparing records) }
    requires stands { (n : Now) × Stands run left.now right.now n }
    ensures { StillTurned run left.now right.now out.old result out.new }
{
    if records.index == records.count {
        return with_phase(run, Phase::Places, run.filled);
    }
    print_record(run, records, left, right, out)
}

// The two files, nothing read of them yet.
pub fn start(left: Side, right: Side) -> Run
    ensures { result ≡ started left right }
{
    Run {
        left,
        right,
        position: 0,
        phase: Phase::Places,
        filled: 0,
        open: true,
    }
}

// Whether a write failed: the run has ended, though its list has not, and no read failed in the middle of a
// file.
fn is_stuck(run: Run) -> bool
    ensures { result ≡ is_stuck run }
{
    let left = run.left;
    let right = run.right;
    let phase = run.phase;
    !(run.open | is_over(phase)) & !((left.failed & left.more) | (right.failed & right.more))
}

// Writes the last of the text. A write that failed is not tried again.
pub fn close(to: &mut Sink, run: Run, out: &[u8]) -> Run
    requires { run.filled ≤ length out.now }
    ensures { Closed run result }
{
    if is_stuck(run) {
        return run;
    }
    flush(to, run, out)
}
