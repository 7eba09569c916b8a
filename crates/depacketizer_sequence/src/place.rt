// Where a packet stands among the fresh ones (01, "Fresh arrivals"; encoders that restart: 02, K11).
ghost use Rattle.std.specs.Prelude.{◌≡◌};
ghost use Rattle.depacketizer_sequence.specs.Answers.{far_of, freshness_of};
ghost use Rattle.depacketizer_spec.specs.Step as step;

use crate::distance::{Class, classify, distance};
use depacketizer_spec::state::{Phase, State};
use wire_spec::number::{PacketNumber, Timestamp};

// A fresh packet, with so many missing before it; `next` where it follows the last fresh one. It is fresh to the state `from`: the one
// that it found, or one just opened where it restarts.
#[derive(Clone, Copy)]
pub struct Fresh {
    pub missing: u64,
    pub next: bool,
    pub from: State,
}

// Why a packet is not fresh.
#[derive(Clone, Copy)]
pub enum NotFresh {
    Late,
    Far,
}

// Lost, with no last fresh number and no remembered one, the counts 0.
pub fn opened(source: u32, payload_type: u8) -> State
    ensures { result ≡ step.open_state source payload_type }
{
    State {
        source,
        payload_type,
        phase: Phase::Lost,
        heard: false,
        last: PacketNumber(0),
        timestamp: Timestamp(0),
        f: 0,
        records: 0,
        cells: 0,
        packets: 0,
        fresh: 0,
        late: 0,
        missing: 0,
        remembers: false,
        remembered: PacketNumber(0),
    }
}

// A far packet restarts where its number is the remembered one.
fn far_or_restart(state: State, number: PacketNumber) -> Result<Fresh, NotFresh>
    ensures { result ≡ far_of (step.is_remembered state number.0) state }
{
    let remembered = state.remembered;
    if state.remembers & (remembered.0 == number.0) {
        return Ok(Fresh {
            missing: 0,
            next: false,
            from: opened(state.source, state.payload_type),
        });
    }
    Err(NotFresh::Far)
}

// The first is always fresh; any other stands as its distance says.
pub fn place(state: State, number: PacketNumber) -> Result<Fresh, NotFresh>
    ensures { result ≡ freshness_of state.heard state number.0 }
{
    if !state.heard {
        return Ok(Fresh {
            missing: 0,
            next: false,
            from: state,
        });
    }
    match classify(distance(state.last, number)) {
        Class::Late => Err(NotFresh::Late),
        Class::Next => Ok(Fresh {
            missing: 0,
            next: true,
            from: state,
        }),
        Class::Far => far_or_restart(state, number),
        Class::Ahead(missing) => Ok(Fresh {
            missing,
            next: false,
            from: state,
        }),
    }
}
