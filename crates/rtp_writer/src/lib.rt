#![tactic(auto)]
// RTP packets with ANC payload (RFC 3550, section 5.1; RFC 8331) written from records in cells.
//
// `write` is the entry point.
ghost use Rattle.std.specs.Prelude.{◌≡◌};
ghost use Rattle.rtp_writer.specs.Entry.{write_leaves, write_returns};

pub mod writing;

use anc_writer::write::write_run;
use rtp_strict_reader::packet::Head;
use wire_spec::count::OctetCount;
use wire_spec::layout::Layout;
use wire_spec::refusal::Refusal;
use writing::{front_size, measure, write_front};

// Writes a packet of the layout with the records of the cells into the first octets of `out`.
pub fn write(
    layout: Layout,
    head: Head,
    cells: &[u16],
    out: &mut [u8],
) -> Result<OctetCount, Refusal>
    ensures value { result ≡ write_returns layout head cells.now out.old }
    ensures out_after { out.new ≡ write_leaves layout head cells.now out.old }
{
    let listed = measure(layout, head, cells, out.len())?;
    let front = front_size(layout);
    write_front(layout, head, listed.count as u8, listed.octets, out);
    write_run(layout, cells, &mut out[front..]);
    Ok(OctetCount(front + listed.octets.0))
}
