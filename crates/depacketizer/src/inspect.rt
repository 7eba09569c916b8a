// A packet checked and summarized, once for all that is asked about it.
ghost use Rattle.std.specs.Prelude.{◌≡◌};
ghost use Rattle.wire_spec.specs.Packet.{read_content};
ghost use Rattle.depacketizer.specs.Answers.{inspected_of};

use rtp_strict_reader::check::{check, summary_at};
use rtp_strict_reader::packet::{Outline, Summary};
use wire_spec::layout::Layout;
use wire_spec::refusal::Refusal;

// Where the parts of an accepted packet are, and what it says.
#[derive(Clone, Copy)]
pub struct Inspected {
    pub outline: Outline,
    pub summary: Summary,
}

// 1 to 13, 15 and 16.
pub fn inspect(layout: Layout, octets: &[u8]) -> Result<Inspected, Refusal>
    ensures { result ≡ inspected_of layout octets.now (read_content layout octets.now) }
{
    let outline = check(layout, octets)?;
    let summary = summary_at(layout, octets, outline);
    Ok(Inspected { outline, summary })
}
