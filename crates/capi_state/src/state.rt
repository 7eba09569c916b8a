// A depacketizer's state as a row of numbers: source, payload type, phase, heard, last, timestamp, F, records, cells, fresh,
// late, missing, whether a number is remembered, that number, and packets (02, K13). Who reads or writes one asks that the row is long enough.
ghost use Rattle.std.specs.Prelude.{◌≡◌, ◌≤◌, length};
ghost use Rattle.wire_spec.specs.Bits.{overwrite};
ghost use Rattle.capi_state.specs.State.{is_state, numbers_of, phase_in, phase_number, state_in, state_size};

use crate::row::{flag, put};
use depacketizer_spec::state::{Phase, State};
use wire_spec::number::{PacketNumber, Timestamp};

// The largest numbers of 32 and of 8 bits.
const MAX_32: u64 = 0xffff_ffff;

const MAX_8: u64 = 0xff;

// Lost 0, ready 1, filling 2.
fn phase_number(phase: Phase) -> u64
    ensures { result ≡ phase_number phase }
{
    match phase {
        Phase::Lost => 0,
        Phase::Ready => 1,
        Phase::Filling => 2,
    }
}

fn phase_in(number: u64) -> Phase
    ensures { result ≡ phase_in number }
{
    if number == 0 {
        return Phase::Lost;
    }
    if number == 1 {
        return Phase::Ready;
    }
    Phase::Filling
}

// Source, last, timestamp and the remembered number have 32 bits, payload type and F have 8; the phase is at most 2, and heard and whether a
// number is remembered are at most 1.
fn is_state(row: &[u64]) -> bool
    requires { state_size ≤ length row.now }
    ensures { result ≡ is_state row.now }
{
    let identity = (row[0] <= MAX_32) & (row[1] <= MAX_8);
    let progress = (row[2] <= 2) & ((row[3] <= 1) & (row[4] <= MAX_32));
    let field = (row[5] <= MAX_32) & (row[6] <= MAX_8);
    let memory = (row[12] <= 1) & (row[13] <= MAX_32);
    identity & (progress & (field & memory))
}

// The state that stands in a row.
pub fn state_in(row: &[u64]) -> Option<State>
    requires { state_size ≤ length row.now }
    ensures { result ≡ state_in row.now }
{
    if !is_state(row) {
        return None;
    }
    Some(State {
        source: row[0] as u32,
        payload_type: row[1] as u8,
        phase: phase_in(row[2]),
        heard: row[3] == 1,
        last: PacketNumber(row[4] as u32),
        timestamp: Timestamp(row[5] as u32),
        f: row[6] as u8,
        records: row[7] as usize,
        cells: row[8] as usize,
        fresh: row[9],
        late: row[10],
        missing: row[11],
        remembers: row[12] == 1,
        remembered: PacketNumber(row[13] as u32),
        packets: row[14] as usize,
    })
}

// Writes the numbers of a state to the first of a row, which then is that state.
pub fn put_state(state: State, row: &mut [u64])
    requires { state_size ≤ length row.old }
    ensures row_after { row.new ≡ overwrite (numbers_of state) row.old }
    ensures row_after_2 { state_in row.new ≡ Some state }
{
    let phase = state.phase;
    let last = state.last;
    let timestamp = state.timestamp;
    let remembered = state.remembered;
    let numbers = [
        state.source as u64,
        state.payload_type as u64,
        phase_number(phase),
        flag(state.heard),
        last.0 as u64,
        timestamp.0 as u64,
        state.f as u64,
        state.records as u64,
        state.cells as u64,
        state.fresh,
        state.late,
        state.missing,
        flag(state.remembers),
        remembered.0 as u64,
        state.packets as u64,
    ];
    put(&numbers, row);
}
