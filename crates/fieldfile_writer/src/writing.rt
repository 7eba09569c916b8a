// A field measured and its header written.
ghost use Rattle.std.specs.Prelude.{◌≡◌, ◌≤◌, length};
ghost use Rattle.anc_writer.specs.Answers.{listed_of};
ghost use Rattle.wire_spec.specs.Layout.{rfc8331};
ghost use Rattle.wire_spec.specs.Bits.{overwrite, pack};
ghost use Rattle.fieldfile_spec.specs.File.{field_header_fields, field_header_size, field_records, written_version};

use anc_writer::check::{Listed, check_list, fits_behind, measure_list};
use fieldfile_reader::rules::{f_ok, within_limits};
use fieldfile_spec::format::HEADER_SIZE_2;
use wire_spec::layout::Layout;
use wire_spec::number::Timestamp;
use wire_spec::refusal::{Refusal, refuse};
use wire_words::octet::copy;

// 53, 20, 16, 21, 23: the records, and the octets of their ANC data packets.
pub(crate) fn measure(f: u8, cells: &[u16], room: usize) -> Result<Listed, Refusal>
    ensures { result ≡ listed_of rfc8331 (field_records f cells.now room) }
{
    if !f_ok(f) {
        return refuse(Refusal::FILE_F_INVALID);
    }
    let Some(listed) = measure_list(Layout::Rfc8331, cells) else {
        return check_list(Layout::Rfc8331, cells);
    };
    let within = within_limits(listed.count, cells.len());
    let enough = fits_behind(HEADER_SIZE_2, listed.octets, room);
    if !within {
        return refuse(Refusal::OVER_LIMIT);
    }
    if !enough {
        return refuse(Refusal::ROOM_TOO_SMALL);
    }
    Ok(listed)
}

// The octets before a field's ANC data packets.
fn header(timestamp: Timestamp, f: u8, count: u16) -> [u8; HEADER_SIZE_2]
    ensures { result ≡ pack (field_header_fields written_version timestamp.0 f count) }
{
    let time = timestamp.0;
    [
        (time / 16777216) as u8,
        (time / 65536 % 256) as u8,
        (time / 256 % 256) as u8,
        (time % 256) as u8,
        f,
        (count / 256) as u8,
        (count % 256) as u8,
    ]
}

// Writes them to the first octets.
pub(crate) fn write_header(timestamp: Timestamp, f: u8, count: u16, octets: &mut [u8])
    requires { field_header_size written_version ≤ length octets.old }
    ensures { octets.new ≡ overwrite (pack (field_header_fields written_version timestamp.0 f count)) octets.old }
{
    let header = header(timestamp, f, count);
    copy(&header, octets);
}
