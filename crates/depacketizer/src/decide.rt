// What a fresh packet does to what is gathered, from numbers alone (01, "Fresh arrivals").
ghost use Rattle.std.specs.Prelude.{◌≡◌, ◌≤◌, if◌then◌else◌};
ghost use Rattle.wire_spec.specs.Writing.{max_field_cells, max_field_packets, max_field_records};
ghost use Rattle.depacketizer_spec.specs.Step as step;
ghost use Rattle.depacketizer.specs.Answers.{carried_by, decision_of};

use depacketizer_spec::state::{Answer, Field, Phase, State};
use rtp_strict_reader::packet::Summary;
use wire_spec::limit::{MAX_FIELD_CELLS, MAX_FIELD_PACKETS, MAX_FIELD_RECORDS};
use wire_spec::number::Timestamp;

// The answer, what is gathered then, and whether the packet's cells are appended.
#[derive(Clone, Copy)]
pub struct Decision {
    pub answer: Answer,
    pub phase: Phase,
    pub timestamp: Timestamp,
    pub f: u8,
    pub records: usize,
    pub cells: usize,
    pub packets: usize,
    pub append: bool,
}

// After a marked packet the next one starts a field; after any other that is not held none can.
fn dropped(answer: Answer, marker: bool) -> Decision
    ensures { result ≡ decision_of (step.dropped answer marker) }
{
    if marker {
        Decision {
            answer,
            phase: Phase::Ready,
            timestamp: Timestamp(0),
            f: 0,
            records: 0,
            cells: 0,
            packets: 0,
            append: false,
        }
    } else {
        Decision {
            answer,
            phase: Phase::Lost,
            timestamp: Timestamp(0),
            f: 0,
            records: 0,
            cells: 0,
            packets: 0,
            append: false,
        }
    }
}

// The field is whole with a marked packet, and held with any other.
fn taken(summary: Summary, records: usize, cells: usize, packets: usize) -> Decision
    ensures { result ≡ decision_of (step.taken (carried_by summary) records cells packets) }
{
    let head = summary.head;
    let timestamp = head.timestamp;
    let f = head.f;
    if head.marker {
        Decision {
            answer: Answer::Whole(Field {
                timestamp,
                f,
                records,
                cells,
                packets,
            }),
            phase: Phase::Ready,
            timestamp: Timestamp(0),
            f: 0,
            records: 0,
            cells: 0,
            packets: 0,
            append: true,
        }
    } else {
        Decision {
            answer: Answer::Held,
            phase: Phase::Filling,
            timestamp,
            f,
            records,
            cells,
            packets,
            append: true,
        }
    }
}

// Within a field's limits and the store.
pub(crate) fn fits(records: usize, cells: usize, packets: usize, room: usize) -> bool
    ensures { result ≡ step.fits records cells packets room }
{
    (records <= MAX_FIELD_RECORDS)
        & ((cells <= MAX_FIELD_CELLS) & ((cells <= room) & (packets <= MAX_FIELD_PACKETS)))
}

// A packet joins so many records in so many cells of so many packets.
fn join(records: usize, cells: usize, packets: usize, summary: Summary, room: usize) -> Decision
    requires { (records ≤ max_field_records) × (cells ≤ max_field_cells) × (packets ≤ max_field_packets) }
    ensures { result ≡ decision_of (step.join records cells packets (carried_by summary) room) }
{
    let head = summary.head;
    if summary.cells > MAX_FIELD_CELLS {
        return dropped(Answer::Overfull, head.marker);
    }
    let all = records + (summary.records as usize);
    let used = cells + summary.cells;
    let number = packets + 1;
    if !fits(all, used, number, room) {
        return dropped(Answer::Overfull, head.marker);
    }
    taken(summary, all, used, number)
}

// A packet that follows the last fresh one.
fn follow(state: State, summary: Summary, room: usize) -> Decision
    requires { (state.records ≤ max_field_records) × (state.cells ≤ max_field_cells) × (state.packets ≤ max_field_packets) }
    ensures { result ≡ decision_of (step.follow (step.gathered state) (carried_by summary) room) }
{
    let head = summary.head;
    let phase = state.phase;
    match phase {
        Phase::Lost => dropped(Answer::Skipped, head.marker),
        Phase::Ready => join(0, 0, 0, summary, room),
        Phase::Filling => {
            let gathered = state.timestamp;
            let arrived = head.timestamp;
            if (gathered.0 == arrived.0) & (state.f == head.f) {
                join(state.records, state.cells, state.packets, summary, room)
            } else {
                dropped(Answer::Mixed, head.marker)
            }
        }
    }
}

// `next` where the packet follows the last fresh one; else there is a gap before it, and what was gathered is dropped.
pub(crate) fn decide(state: State, next: bool, summary: Summary, room: usize) -> Decision
    requires { (state.records ≤ max_field_records) × (state.cells ≤ max_field_cells) × (state.packets ≤ max_field_packets) }
    ensures { result ≡ decision_of (step.follow (if next then step.gathered state else step.lost) (carried_by summary) room) }
{
    if next {
        return follow(state, summary, room);
    }
    let head = summary.head;
    dropped(Answer::Skipped, head.marker)
}
