// What lets an arrival pass (01: "An arrival passes 35, then 1 to 13, then 30, 31, 32").
ghost use Rattle.std.specs.Prelude.{◌≡◌, [], ◌∷◌};
ghost use Rattle.depacketizer.specs.Answers.{admitted, stage_of};
ghost use Rattle.depacketizer_spec.specs.Step as step;

use crate::decide::fits;
use crate::inspect::Inspected;
use depacketizer_spec::state::{Phase, State};
use rtp_strict_reader::packet::Head;
use wire_spec::refusal::{Refusal, refuse};

// 35: more than a field or the store can have, something gathered where not filling, no packet where filling, or more than lost before a first arrival.
fn is_sound(state: State, room: usize) -> bool
    ensures { result ≡ step.sound state room }
{
    let none = state.packets == 0;
    let empty = (state.records == 0) & (state.cells == 0);
    let within = fits(state.records, state.cells, state.packets, room);
    let phase = state.phase;
    match phase {
        Phase::Lost => within & (none & empty),
        Phase::Ready => within & (none & (empty & state.heard)),
        Phase::Filling => within & ((1 <= state.packets) & state.heard),
    }
}

// Passed where the test holds, else refused with this number.
fn require(holds: bool, number: u8) -> Result<(), Refusal>
    ensures { result ≡ stage_of ((holds, number) ∷ []) }
{
    if holds { Ok(()) } else { refuse(number) }
}

// 30, 31: a packet of the opened source and payload type.
fn check_opened(source: u32, payload_type: u8, head: Head) -> Result<(), Refusal>
    ensures { result ≡ stage_of (step.opened_checks source payload_type head.source head.payload_type) }
{
    require(head.source == source, Refusal::SOURCE_OTHER)?;
    require(head.payload_type == payload_type, Refusal::TYPE_OTHER)
}

// 35, then 1 to 13, 15 and 16, then 30, 31.
pub(crate) fn admit(
    state: State,
    room: usize,
    inspected: Result<Inspected, Refusal>,
) -> Result<Inspected, Refusal>
    ensures { result ≡ admitted state room inspected }
{
    require(is_sound(state, room), Refusal::STATE_UNSOUND)?;
    let packet = inspected?;
    check_opened(state.source, state.payload_type, packet.summary.head)?;
    Ok(packet)
}
