#![tactic(auto)]
// RTP packets with ANC payload (RFC 3550, section 5.1; RFC 8331): what they say, and the reader.
//
// `read_strict` is the strict entry point, and `check::check` is the same without the writing; the tolerant one is `rtp_reader::read` (02, K9). The writer
// is crate `rtp_writer`.
ghost use Rattle.std.specs.Prelude.{◌≡◌};
ghost use Rattle.rtp_strict_reader.specs.Entry.{read_leaves, read_returns};

pub mod check;
pub mod packet;
pub mod stages;

use check::{check, read_records, summary_at};
use packet::Summary;
use wire_spec::layout::Layout;
use wire_spec::limit::READ_INDEX;
use wire_spec::refusal::{Refusal, refuse};

// Reads a packet of the layout in the strict way: its records into the first cells, and what stands beside them.
pub fn read_strict(layout: Layout, octets: &[u8], cells: &mut [u16]) -> Result<Summary, Refusal>
    ensures value { result ≡ read_returns layout octets.now cells.old }
    ensures cells_after { cells.new ≡ read_leaves layout octets.now cells.old }
{
    let outline = check(layout, octets)?;
    if cells.len() < outline.cells {
        return refuse(Refusal::LIST_TOO_SHORT);
    }
    read_records(layout, octets, outline, READ_INDEX, cells);
    Ok(summary_at(layout, octets, outline))
}
