// A packet measured and its headers written (01, "Writing").
ghost use Rattle.std.specs.Prelude.{◌&&◌, ◌≡◌, ◌<◌, ◌≤◌, ◌^◌, leb, length};
ghost use Rattle.wire_spec.specs.Bits.{overwrite, pack, splice};
ghost use Rattle.wire_spec.specs.Cells.{read_list};
ghost use Rattle.wire_spec.specs.Layout.{draft2015};
ghost use Rattle.wire_spec.specs.Result.{IsAccepted};
ghost use Rattle.wire_spec.specs.Writing.{head_ok, layout_ok, max_cells, max_records, max_type, packet_records};
ghost use Rattle.anc_writer.specs.Answers.{list_records, listed_of};
ghost use Rattle.rtp_writer.specs.Answers.{content_of};
ghost use Rattle.rtp_writer.specs.Front.{f_fields, front_fields, front_size};

use anc_writer::check::{Listed, check_list, fits_behind, measure_list, no_stream};
use rtp_strict_reader::packet::Head;
use wire_offsets::payload_header_size;
use wire_spec::count::OctetCount;
use wire_spec::layout::{DRAFT_FRONT_SIZE, F_AT, Layout, RTP_HEADER_SIZE};
use wire_spec::limit::{MAX_CELLS, MAX_RECORDS, MAX_TYPE};
use wire_spec::refusal::{Refusal, refuse};
use wire_words::octet::{copy, flag};

// 24.
fn head_ok(head: Head) -> bool
    ensures { result ≡ head_ok head.payload_type head.f }
{
    (head.payload_type <= MAX_TYPE) & ((head.f <= 3) & (head.f != 1))
}

// 21.
fn within_limits(records: usize, cells: usize) -> bool
    ensures { result ≡ leb records max_records && leb cells max_cells }
{
    (records <= MAX_RECORDS) & (cells <= MAX_CELLS)
}

// Octets before the ANC data packets.
pub(crate) fn front_size(layout: Layout) -> usize
    ensures { result ≡ front_size layout }
{
    RTP_HEADER_SIZE + payload_header_size(layout)
}

// 25: "F, S or StreamNum not zero in old writing" (02, K3). It asks for a list that was checked.
fn layout_ok(layout: Layout, f: u8, cells: &[u16]) -> bool
    requires { IsAccepted (read_list cells.now) }
    ensures { result ≡ layout_ok layout f (list_records (read_list cells.now)) }
{
    match layout {
        Layout::Rfc8331 => true,
        Layout::Draft2015 => (f == 0) & no_stream(cells),
    }
}

// 24, 20, 16, 21, 25, 23: the records, and the octets of their ANC data packets.
pub(crate) fn measure(
    layout: Layout,
    head: Head,
    cells: &[u16],
    room: usize,
) -> Result<Listed, Refusal>
    ensures { result ≡ listed_of layout (packet_records layout (content_of head) cells.now room) }
{
    if !head_ok(head) {
        return refuse(Refusal::HEAD_INVALID);
    }
    let Some(listed) = measure_list(layout, cells) else {
        return check_list(layout, cells);
    };
    let front = front_size(layout);
    let within = within_limits(listed.count, cells.len());
    let held = layout_ok(layout, head.f, cells);
    let enough = fits_behind(front, listed.octets, room);
    if !within {
        return refuse(Refusal::OVER_LIMIT);
    }
    if !held {
        return refuse(Refusal::NOT_IN_LAYOUT);
    }
    if !enough {
        return refuse(Refusal::ROOM_TOO_SMALL);
    }
    Ok(listed)
}

// The RTP header, and the payload header up to ANC_Count, with which the drafts' ends.
fn front(head: Head, count: u8, size: OctetCount) -> [u8; DRAFT_FRONT_SIZE]
    requires { (head.payload_type ≤ max_type) × (size.0 < 2 ^ 16) }
    ensures { result ≡ pack (front_fields draft2015 head count size.0) }
{
    let number = head.number;
    let number = number.0;
    let timestamp = head.timestamp;
    let timestamp = timestamp.0;
    let source = head.source;
    [
        128,
        flag(head.marker) * 128 + head.payload_type,
        (number / 256 % 256) as u8,
        (number % 256) as u8,
        (timestamp / 16777216) as u8,
        (timestamp / 65536 % 256) as u8,
        (timestamp / 256 % 256) as u8,
        (timestamp % 256) as u8,
        (source / 16777216) as u8,
        (source / 65536 % 256) as u8,
        (source / 256 % 256) as u8,
        (source % 256) as u8,
        (number / 16777216) as u8,
        (number / 65536 % 256) as u8,
        (size.0 / 256) as u8,
        (size.0 % 256) as u8,
        count,
    ]
}

// Writes F and the reserved bits, where the layout has them, behind ANC_Count.
fn write_f(layout: Layout, f: u8, octets: &mut [u8])
    requires { (f ≤ 3) × (front_size layout ≤ length octets.old) }
    ensures { octets.new ≡ splice octets.old (front_size draft2015) (pack (f_fields layout f)) }
{
    match layout {
        Layout::Rfc8331 => {
            let at = RTP_HEADER_SIZE + F_AT;
            octets[at] = f * 64;
            octets[at + 1] = 0;
            octets[at + 2] = 0;
        }
        Layout::Draft2015 => {}
    }
}

// Writes the RTP header and the payload header to the first octets.
pub(crate) fn write_front(
    layout: Layout,
    head: Head,
    count: u8,
    size: OctetCount,
    octets: &mut [u8],
)
    requires { (head.payload_type ≤ max_type) × (head.f ≤ 3) × (size.0 < 2 ^ 16) × (front_size layout ≤ length octets.old) }
    ensures { octets.new ≡ overwrite (pack (front_fields layout head count size.0)) octets.old }
{
    let front = front(head, count, size);
    copy(&front, octets);
    write_f(layout, head.f, octets);
}
