// What an accepted packet shows, and what is carried on.
ghost use Rattle.std.specs.Prelude.{◌≡◌};
ghost use Rattle.streamcheck_spec.specs.Check.{opened, place_within};
ghost use Rattle.streamcheck_spec.specs.Code.{change_in, gap_in, scan_of, sound_step, source_in, step_of, type_in};

use rtp_strict_reader::packet::Head;
use streamcheck_spec::checker::{Checker, Findings, Step};
use streamcheck_spec::place::{Place, Scan};
use wire_spec::number::{PacketNumber, Timestamp};
use wire_spec::refusal::Refusal;

// Before the first packet.
pub fn open() -> Checker
    ensures { result ≡ opened }
{
    Checker {
        last: None,
        place: None,
    }
}

// Before a packet's records.
pub(crate) fn scan_of(checker: Checker) -> Scan
    ensures { result ≡ scan_of checker.place }
{
    Scan {
        descends: false,
        place: checker.place,
    }
}

// The number is not the next.
fn is_gap(last: Option<Head>, number: PacketNumber) -> bool
    ensures { result ≡ gap_in last number.0 }
{
    last.is_some_and(|last| number.0 != std::num::wrapping_add_u32(last.number.0, 1))
}

// Timestamp or F changed before a mark.
fn is_change(last: Option<Head>, timestamp: Timestamp, f: u8) -> bool
    ensures { result ≡ change_in last timestamp.0 f }
{
    last.is_some_and(|last| { !last.marker & ((timestamp.0 != last.timestamp.0) | (f != last.f)) })
}

// The source is that of the first accepted packet, where one is known.
fn is_source(last: Option<Head>, source: u32) -> bool
    ensures { result ≡ source_in last source }
{
    last.is_none_or(|last| source == last.source)
}

// And so is the payload type.
fn is_type(last: Option<Head>, payload_type: u8) -> bool
    ensures { result ≡ type_in last payload_type }
{
    last.is_none_or(|last| payload_type == last.payload_type)
}

// A field ends at a mark.
fn place_within(marked: bool, place: Option<Place>) -> Option<Place>
    ensures { result ≡ place_within marked place }
{
    if marked { None } else { place }
}

// What a packet that is not refused shows.
fn sound_step(checker: Checker, head: Head, reserved: bool, scan: Scan) -> Step
    ensures { result ≡ sound_step checker head reserved scan }
{
    let findings = Findings {
        number: is_gap(checker.last, head.number),
        change: is_change(checker.last, head.timestamp, head.f),
        reserved,
        raster: scan.descends,
    };
    let next = Checker {
        last: Some(head),
        place: place_within(head.marker, scan.place),
    };
    Step {
        checker: next,
        outcome: Ok(findings),
    }
}

// An accepted packet; `scan` has gone past all of its records from this state's place on.
pub(crate) fn step(checker: Checker, head: Head, reserved: bool, scan: Scan) -> Step
    ensures { result ≡ step_of checker head reserved scan }
{
    if !is_source(checker.last, head.source) {
        return Step {
            checker,
            outcome: Err(Refusal {
                number: Refusal::SOURCE_OTHER,
                index: 0,
            }),
        };
    }
    if !is_type(checker.last, head.payload_type) {
        return Step {
            checker,
            outcome: Err(Refusal {
                number: Refusal::TYPE_OTHER,
                index: 0,
            }),
        };
    }
    sound_step(checker, head, reserved, scan)
}
