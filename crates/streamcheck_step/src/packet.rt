// A packet read in the strict way, and what it shows. Its records need no more cells than it has octets, so 14 cannot be given.
ghost use Rattle.std.specs.Prelude.{◌≡◌, ◌+◌, ◌≤◌, not, length, ◌==◌};
ghost use Rattle.wire_spec.specs.Layout.{payload_header_size};
ghost use Rattle.wire_spec.specs.Packet.{header_size, max_packet, read_content, reserved_field};
ghost use Rattle.rtp_strict_reader.specs.Answers.{cells_after, checked_of};
ghost use Rattle.streamcheck_spec.specs.Code.{turn};

use crate::step::{scan_of, step};
use rtp_strict_reader::check::{check, read_records, summary_at};
use rtp_strict_reader::packet::Outline;
use streamcheck_raster::past_list;
use streamcheck_spec::checker::{Checker, Step};
use wire_spec::count::OctetCount;
use wire_spec::layout::{ANC_COUNT_AT, Layout};
use wire_spec::limit::READ_INDEX;
use wire_words::octet::quad_at;

// The numbers that the 22 reserved bits of a payload header can be.
const RESERVED_NUMBERS: u32 = 0x40_0000;

// Whether reserved bits are set in the payload header at the octet `header`; the drafts' layout has none.
fn reserved_set(layout: Layout, octets: &[u8], header: OctetCount) -> bool
    requires { (header.0 ≡ header_size octets.now) × (header.0 + payload_header_size layout ≤ length octets.now) }
    ensures { result ≡ not (reserved_field layout octets.now == 0) }
{
    let at = header.0;
    match layout {
        Layout::Rfc8331 => quad_at(octets, at + ANC_COUNT_AT) % RESERVED_NUMBERS != 0,
        Layout::Draft2015 => false,
    }
}

// A packet that `check` accepted.
fn check_accepted(
    layout: Layout,
    checker: Checker,
    octets: &[u8],
    outline: Outline,
    cells: &mut [u16],
) -> Step
    requires octets_value { checked_of layout octets.now (read_content layout octets.now) ≡ Ok outline }
    requires max_packet_in_bounds { max_packet ≤ length cells.old }
    ensures value { result ≡ turn layout checker octets.now }
    ensures cells_after { cells.new ≡ cells_after (read_content layout octets.now) cells.old }
{
    read_records(layout, octets, outline, READ_INDEX, cells);
    let used = outline.cells;
    let scan = past_list(scan_of(checker), &cells[..used]);
    let summary = summary_at(layout, octets, outline);
    let head = summary.head;
    let reserved = reserved_set(layout, octets, outline.header);
    step(checker, head, reserved, scan)
}

// One packet of the stream, told the layout; the cells are lent for its records.
pub fn check_packet(layout: Layout, checker: Checker, octets: &[u8], cells: &mut [u16]) -> Step
    requires { max_packet ≤ length cells.old }
    ensures value { result ≡ turn layout checker octets.now }
    ensures cells_after { cells.new ≡ cells_after (read_content layout octets.now) cells.old }
{
    match check(layout, octets) {
        Ok(outline) => check_accepted(layout, checker, octets, outline, cells),
        Err(refusal) => Step {
            checker,
            outcome: Err(refusal),
        },
    }
}
