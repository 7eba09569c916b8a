// A packet checked: all of 01's "Order of reading" but 14, without writing anything. Then its records read to cells.
ghost use Rattle.std.specs.Prelude.{◌≡◌, ◌+◌, ◌≤◌, length};
ghost use Rattle.wire_spec.specs.Layout.{payload_header_size};
ghost use Rattle.wire_spec.specs.Packet.{header_least, header_size, read_content};
ghost use Rattle.wire_spec.specs.Result.{Ok};
ghost use Rattle.rtp_strict_reader.specs.Answers.{cells_after_in, checked_of, front_checked, head_at, read_of};

use crate::packet::{Head, Outline, Summary};
use crate::stages::{check_header, check_padding, check_payload, f_at};
use anc_reader::check::check_run;
use anc_reader::read::read_run;
use wire_offsets::payload_header_size;
use wire_spec::count::OctetCount;
use wire_spec::layout::{ANC_COUNT_AT, Layout};
use wire_spec::number::{PacketNumber, Timestamp};
use wire_spec::refusal::{Refusal, refuse};
use wire_words::octet::{pair_at, quad_at, wide};

// The six values of a packet whose payload header stands at `header`.
pub fn head_at(layout: Layout, octets: &[u8], header: OctetCount) -> Head
    requires { (header.0 ≡ header_size octets.now) × (header_least ≤ header.0) × (header.0 + payload_header_size layout ≤ length octets.now) }
    ensures { result ≡ head_at layout octets.now }
{
    let at = header.0;
    let second = wide(octets[1]);
    let high = pair_at(octets, at);
    let low = pair_at(octets, 2);
    Head {
        source: quad_at(octets, 8),
        payload_type: (second % 128) as u8,
        marker: second / 128 == 1,
        number: PacketNumber((high * 65536 + low) as u32),
        timestamp: Timestamp(quad_at(octets, 4)),
        f: f_at(layout, octets, at),
    }
}

// The ANC data packets, and 13, of a packet that passed 1 to 8.
fn check_packets(
    layout: Layout,
    octets: &[u8],
    header: OctetCount,
    size: OctetCount,
) -> Result<Outline, Refusal>
    requires { front_checked layout octets.now ≡ Ok (header.0, size.0) }
    ensures { result ≡ checked_of layout octets.now (read_content layout octets.now) }
{
    let from = header.0;
    let at = from + payload_header_size(layout);
    let end = at + size.0;
    let count = octets[from + ANC_COUNT_AT];
    let run = check_run(layout, &octets[at..end], count as usize)?;
    if run.octets.0 < size.0 {
        return refuse(Refusal::OCTETS_LEFT);
    }
    Ok(Outline {
        header,
        length: size,
        records: count as usize,
        cells: run.cells,
    })
}

// Everything but 14.
pub fn check(layout: Layout, octets: &[u8]) -> Result<Outline, Refusal>
    ensures { result ≡ checked_of layout octets.now (read_content layout octets.now) }
{
    let header = check_header(octets)?;
    let payload = check_padding(layout, octets, header)?;
    let length = check_payload(layout, octets, header, payload)?;
    check_packets(layout, octets, header, length)
}

// Writes the cells of a packet that `check` accepted to the first cells; `index` is that of the packet within its field.
pub fn read_records(layout: Layout, octets: &[u8], outline: Outline, index: u16, cells: &mut [u16])
    requires octets_value { checked_of layout octets.now (read_content layout octets.now) ≡ Ok outline }
    requires cells_in_bounds { outline.cells ≤ length cells.old }
    ensures { cells.new ≡ cells_after_in index (read_content layout octets.now) cells.old }
{
    let header = outline.header;
    let at = header.0 + payload_header_size(layout);
    let length = outline.length;
    let end = at + length.0;
    read_run(layout, &octets[at..end], outline.records, index, cells);
}

// What a packet says that `check` accepted, with its counts. The six values are read where they stand.
pub fn summary_at(layout: Layout, octets: &[u8], outline: Outline) -> Summary
    requires { checked_of layout octets.now (read_content layout octets.now) ≡ Ok outline }
    ensures { read_of (read_content layout octets.now) ≡ Ok result }
{
    Summary {
        head: head_at(layout, octets, outline.header),
        records: outline.records as u8,
        cells: outline.cells,
    }
}
