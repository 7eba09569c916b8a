#![tactic(auto)]
// One of the two files that are compared (02, K14): where its reading stands, and what it has at the position. A file is read turn by turn, over the octets
// at hand; each function asks that places lie within the input.
ghost use Rattle.std.specs.Prelude.{◌≡◌, ◌-◌, ◌<◌, ◌≤◌, length};
ghost use Rattle.wire_spec.specs.Writing.{max_field_cells};
ghost use Rattle.fieldfile_scan.specs.Scan.{Reachable, scan, store_then};
ghost use Rattle.fielddiff_side.specs.Side.{Advanced, HeldReachable, InSide, ReadMore, behind_turn, is_at_start, is_reading, is_short, next_held, next_side, opened, place_of, stood_as, unscanned, used_of, window_size};

use fieldfile_scan::state::{Scanned, State};
use fieldfile_scan::turn;
use fieldfile_scan_spec::found::{Found, Place};
use fieldfile_spec::format::Version;
use program::buffers::is_interrupted;
use program::streams::Source;
use program::window::move_to_front;
use wire_spec::refusal::Refusal;

// Octets that are enough for any turn: those of the largest ANC data packet.
pub const WINDOW: usize = 328;

// Still being read; a field, with the file's version; the end (54); or the number of a refusal.
// Kept whole: the four are what a file can be at between two turns, and each turn asks for one of them.
#[derive(Clone, Copy)]
pub enum Standing {
    Reading(State),
    Field { found: Found, version: Version },
    Ended,
    Refused(u8),
}

// The octets from `at` to `end` of the input are still to be scanned; `more` may follow; `failed`: the last
// turn was a read, and it failed. If `more` may follow a read that failed, it failed in the middle of the
// file.
#[derive(Clone, Copy)]
pub struct Side {
    pub standing: Standing,
    pub at: usize,
    pub end: usize,
    pub more: bool,
    pub failed: bool,
}

// A file that is open, or one that is not and reads as empty.
pub fn start(open: bool) -> Side
    ensures { result ≡ opened «open» }
{
    Side {
        standing: Standing::Reading(State::Start),
        at: 0,
        end: 0,
        more: open,
        failed: false,
    }
}

// Whether the file's head is not scanned yet.
fn is_at_start(standing: Standing) -> bool
    ensures { result ≡ is_at_start standing }
{
    matches!(standing, Standing::Reading(State::Start))
}

// Moves what is left to the front, and reads more behind it. There must be room, as a read without any is
// like one at the end. A file whose first read fails reads as empty.
fn read_more(from: &mut Source, side: Side, input: &mut [u8]) -> Side
    requires in_side { InSide side (length input.old) }
    requires at_in_bounds { side.end - side.at < length input.old }
    ensures { ReadMore side input.old result input.new }
{
    let standing = side.standing;
    let at = side.at;
    let end = side.end;
    move_to_front(&mut input[..end], at);
    let rest = end - at;
    match from.read(&mut input[rest..]) {
        Ok(n) => Side {
            standing,
            at: 0,
            end: rest + n,
            more: n > 0,
            failed: false,
        },
        Err(reason) => {
            let interrupted = is_interrupted(&reason);
            let unread = is_at_start(standing) & (rest == 0);
            Side {
                standing,
                at: 0,
                end: rest,
                more: interrupted | !unread,
                failed: !interrupted,
            }
        }
    }
}

// By what a turn gave.
fn stood(scanned: Result<Scanned, Refusal>) -> Standing
    ensures { result ≡ stood_as scanned }
{
    match scanned {
        Err(refusal) => {
            if refusal.number == Refusal::END_OF_FILE {
                return Standing::Ended;
            }
            Standing::Refused(refusal.number)
        }
        Ok(Scanned::Field { found, version }) => Standing::Field { found, version },
        Ok(Scanned::On { state, .. }) => Standing::Reading(state),
    }
}

fn used_of(scanned: Result<Scanned, Refusal>) -> usize
    ensures { result ≡ used_of scanned }
{
    match scanned {
        Ok(Scanned::On { used, .. }) => used.0,
        _ => 0,
    }
}

// One turn over the octets at hand.
fn scan_on(state: State, side: Side, input: &[u8], store: &mut [u16]) -> Side
    requires { InSide side (length input.now) × Reachable state }
    ensures value { result ≡ behind_turn side (scan state (unscanned side input.now)) }
    ensures store_after { store.new ≡ store_then state (unscanned side input.now) store.old }
{
    let scanned = turn(state, &input[side.at..side.end], store);
    Side {
        standing: stood(scanned),
        at: side.at + used_of(scanned),
        failed: false,
        ..side
    }
}

fn is_short(side: Side) -> bool
    requires { side.at ≤ side.end }
    ensures { result ≡ is_short side }
{
    side.more & (side.end - side.at < WINDOW)
}

// One turn of a file that is being read, or more octets for it.
pub fn advance(from: &mut Source, side: Side, input: &mut [u8], store: &mut [u16]) -> Side
    requires in_side { InSide side (length input.old) × HeldReachable side.standing }
    requires max_field_cells_in_bounds { max_field_cells ≤ length store.old }
    requires window_size_in_bounds { window_size ≤ length input.old }
    ensures { Advanced side input.old store.old result input.new store.new }
{
    let standing = side.standing;
    match standing {
        Standing::Reading(state) => {
            if is_short(side) {
                return read_more(from, side, input);
            }
            scan_on(state, side, input, store)
        }
        Standing::Field { .. } | Standing::Ended | Standing::Refused(_) => side,
    }
}

pub fn is_reading(side: Side) -> bool
    ensures { result ≡ is_reading side.standing }
{
    matches!(side.standing, Standing::Reading(_))
}

// What the file has at the position.
pub fn place_of(side: Side) -> Place
    ensures { result ≡ place_of side.standing }
{
    let standing = side.standing;
    match standing {
        Standing::Reading(_) => Place::Ended,
        Standing::Field { found, .. } => Place::Field(found),
        Standing::Ended => Place::Ended,
        Standing::Refused(number) => Place::Refused(number),
    }
}

fn next_standing(standing: Standing) -> Standing
    ensures { result ≡ next_held standing }
{
    match standing {
        Standing::Reading(state) => Standing::Reading(state),
        Standing::Field { version, .. } => Standing::Reading(State::Between(version)),
        Standing::Ended => Standing::Ended,
        Standing::Refused(number) => Standing::Refused(number),
    }
}

// To the next position: behind a field the file is read on.
pub fn next(side: Side) -> Side
    ensures { result ≡ next_side side }
{
    Side {
        standing: next_standing(side.standing),
        ..side
    }
}
