// A packet that the strict way accepts: none of its records is left out.
ghost use Rattle.std.specs.Prelude.{◌≡◌};
ghost use Rattle.wire_spec.specs.Packet.{read_content};
ghost use Rattle.rtp_strict_reader.specs.Answers.{checked_of};
ghost use Rattle.rtp_reader.specs.Entry.{tolerant_leaves, tolerant_returns};

use crate::packet::TolerantRead;
use rtp_strict_reader::check::{read_records, summary_at};
use rtp_strict_reader::packet::Outline;
use wire_spec::layout::Layout;
use wire_spec::limit::READ_INDEX;
use wire_spec::refusal::{Refusal, refuse};

// The records of a packet that `rtp_strict_reader::check` accepted into the first cells, 14 before.
pub fn read_outlined(
    layout: Layout,
    octets: &[u8],
    outline: Outline,
    cells: &mut [u16],
) -> Result<TolerantRead, Refusal>
    requires { checked_of layout octets.now (read_content layout octets.now) ≡ Ok outline }
    ensures value { result ≡ tolerant_returns layout octets.now cells.old }
    ensures cells_after { cells.new ≡ tolerant_leaves layout octets.now cells.old }
{
    if cells.len() < outline.cells {
        return refuse(Refusal::LIST_TOO_SHORT);
    }
    read_records(layout, octets, outline, READ_INDEX, cells);
    Ok(TolerantRead {
        summary: summary_at(layout, octets, outline),
        omitted: 0,
    })
}
