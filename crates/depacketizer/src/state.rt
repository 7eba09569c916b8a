// The depacketizer: how it is opened, and what an arrival does (01's keeper).
ghost use Rattle.std.specs.Prelude.{◌≡◌};
ghost use Rattle.wire_spec.specs.Packet.{read_content};
ghost use Rattle.depacketizer_spec.specs.Step as step;
ghost use Rattle.depacketizer.specs.Answers.{after_of, arrival_of, inspected_of, opened_of, refused_of};

use crate::admit::admit;
use crate::count::increased;
use crate::decide::{Decision, decide};
use crate::inspect::{Inspected, inspect};
use depacketizer_sequence::place::{Fresh, NotFresh, opened, place};
use depacketizer_spec::state::{Answer, State};
use rtp_strict_reader::check::read_records;
use wire_spec::layout::Layout;
use wire_spec::limit::MAX_TYPE;
use wire_spec::number::PacketNumber;
use wire_spec::refusal::Refusal;

// A depacketizer, which a caller keeps between arrivals as its state.
#[derive(Clone, Copy)]
pub struct Depacketizer {
    pub state: State,
}

// The depacketizer then, and the answer to one arrival.
#[derive(Clone, Copy)]
pub struct Arrival {
    pub state: Depacketizer,
    pub answer: Answer,
}

// A state with one more late arrival.
fn later(state: State) -> State
    ensures { result ≡ step.later state }
{
    let late = increased(state.late, 1);
    let mut next = state;
    next.late = late;
    next
}

// A state that remembers the number after this one, and is else as it was.
fn remembering(state: State, number: PacketNumber) -> State
    ensures { result ≡ step.remembering state (step.number_after number.0) }
{
    let remembered = PacketNumber(std::num::wrapping_add_u32(number.0, 1));
    let mut next = state;
    next.remembers = true;
    next.remembered = remembered;
    next
}

// 32 or 36: what an arrival does that is not fresh.
fn refuse(state: State, number: PacketNumber, why: NotFresh) -> Arrival
    ensures { result ≡ refused_of why state number.0 }
{
    let (state, number) = match why {
        NotFresh::Late => (later(state), Refusal::LATE),
        NotFresh::Far => (remembering(state, number), Refusal::FAR),
    };
    Arrival {
        state: Depacketizer { state },
        answer: Answer::Refused(Refusal { number, index: 0 }),
    }
}

// The state after a fresh packet, from what was decided, with so many more missing.
fn after(state: State, number: PacketNumber, decision: Decision, missing: u64) -> State
    ensures { result ≡ after_of state number.0 decision missing }
{
    let phase = decision.phase;
    let timestamp = decision.timestamp;
    State {
        source: state.source,
        payload_type: state.payload_type,
        phase,
        heard: true,
        last: number,
        timestamp,
        f: decision.f,
        records: decision.records,
        cells: decision.cells,
        packets: decision.packets,
        fresh: increased(state.fresh, 1),
        late: state.late,
        missing: increased(state.missing, missing),
        remembers: false,
        remembered: PacketNumber(0),
    }
}

impl Depacketizer {
    // A depacketizer of one source and payload type, which must be at most 127.
    pub fn open(source: u32, payload_type: u8) -> Result<Depacketizer, Refusal>
        ensures { result ≡ opened_of (step.open_of source payload_type) }
    {
        if payload_type > MAX_TYPE {
            return wire_spec::refusal::refuse(Refusal::HEAD_INVALID);
        }
        Ok(Depacketizer {
            state: opened(source, payload_type),
        })
    }

    // One arrival of octets in a layout that the caller tells. The store has the cells gathered so far; only an answer held or whole writes to it.
    pub fn arrive(self, layout: Layout, octets: &[u8], store: &mut [u16]) -> Arrival
        ensures value { result ≡ arrival_of (step.step self.state layout octets.now store.old) }
        ensures store_after { store.new ≡ (step.step self.state layout octets.now store.old).store }
    {
        let inspected = inspect(layout, octets);
        self.arrive_checked(layout, octets, inspected, store)
    }

    // The same for a packet that the caller has inspected.
    pub fn arrive_checked(
        self,
        layout: Layout,
        octets: &[u8],
        inspected: Result<Inspected, Refusal>,
        store: &mut [u16],
    ) -> Arrival
        requires { inspected ≡ inspected_of layout octets.now (read_content layout octets.now) }
        ensures value { result ≡ arrival_of (step.step self.state layout octets.now store.old) }
        ensures store_after { store.new ≡ (step.step self.state layout octets.now store.old).store }
    {
        let state = self.state;
        let packet = match admit(state, store.len(), inspected) {
            Ok(packet) => packet,
            Err(refusal) => {
                return Arrival {
                    state: self,
                    answer: Answer::Refused(refusal),
                };
            }
        };
        let head = packet.summary.head;
        let fresh = match place(state, head.number) {
            Ok(fresh) => fresh,
            Err(why) => return refuse(state, head.number, why),
        };
        let from = fresh.from;
        let decision = decide(from, fresh.next, packet.summary, store.len());
        if decision.append {
            let at = from.cells;
            let index = from.packets as u16;
            read_records(layout, octets, packet.outline, index, &mut store[at..]);
        }
        let answer = decision.answer;
        Arrival {
            state: Depacketizer {
                state: after(from, head.number, decision, fresh.missing),
            },
            answer,
        }
    }
}
