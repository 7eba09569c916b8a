#![tactic(auto)]
// Field files written (01, "Field file"; 02, K2): version 2.
//
// `begin` and `write_field` are the entry points. A refusal leaves the octets to write to as they were.
ghost use Rattle.std.specs.Prelude.{◌≡◌};
ghost use Rattle.fieldfile_writer.specs.Entry.{begin_leaves, begin_returns, field_leaves, field_returns};

pub mod writing;

use anc_writer::write::write_run;
use fieldfile_spec::format::{HEAD_SIZE, HEADER_SIZE_2};
use wire_spec::count::OctetCount;
use wire_spec::layout::Layout;
use wire_spec::number::Timestamp;
use wire_spec::refusal::{Refusal, refuse};
use wire_words::octet::copy;
use writing::{measure, write_header};

// `ANF` and version 2.
const HEAD: [u8; HEAD_SIZE] = [0x41, 0x4E, 0x46, 0, 2];

// Writes `ANF` and the version to the first octets of `out`.
pub fn begin(out: &mut [u8]) -> Result<OctetCount, Refusal>
    ensures value { result ≡ begin_returns out.old }
    ensures out_after { out.new ≡ begin_leaves out.old }
{
    if out.len() < HEAD_SIZE {
        return refuse(Refusal::ROOM_TOO_SMALL);
    }
    copy(&HEAD, out);
    Ok(OctetCount(HEAD_SIZE))
}

// Writes a field with the records of the cells into the first octets of `out`, for a file that `begin` began.
pub fn write_field(
    timestamp: Timestamp,
    f: u8,
    cells: &[u16],
    out: &mut [u8],
) -> Result<OctetCount, Refusal>
    ensures value { result ≡ field_returns timestamp.0 f cells.now out.old }
    ensures out_after { out.new ≡ field_leaves timestamp.0 f cells.now out.old }
{
    let listed = measure(f, cells, out.len())?;
    write_header(timestamp, f, listed.count as u16, out);
    write_run(Layout::Rfc8331, cells, &mut out[HEADER_SIZE_2..]);
    Ok(OctetCount(HEADER_SIZE_2 + listed.octets.0))
}
