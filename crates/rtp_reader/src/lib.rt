#![tactic(auto)]
// The packet reader in its default, the tolerant way (02, K9): "a record that fails only its checksum is left out and counted, the rest come through
// in order".
//
// `read` is the entry point. It checks in the strict way first (`rtp_strict_reader::check`), and goes the tolerant way only where that one refuses by
// 11: a packet without wrong checksums is read as fast as in the strict way. The two ways behind the check, `outlined::read_outlined` and
// `through::read_refused`, can be called apart, so that a caller answers each in its own arm.
ghost use Rattle.std.specs.Prelude.{◌≡◌};
ghost use Rattle.rtp_reader.specs.Entry.{tolerant_leaves, tolerant_returns};

pub mod outlined;
pub mod packet;
pub mod through;

use outlined::read_outlined;
use packet::TolerantRead;
use rtp_strict_reader::check::check;
use through::read_refused;
use wire_spec::layout::Layout;
use wire_spec::refusal::Refusal;

// Reads a packet of the layout: the records that come through into the first cells, what stands beside them, and how many were left out.
pub fn read(layout: Layout, octets: &[u8], cells: &mut [u16]) -> Result<TolerantRead, Refusal>
    ensures value { result ≡ tolerant_returns layout octets.now cells.old }
    ensures cells_after { cells.new ≡ tolerant_leaves layout octets.now cells.old }
{
    match check(layout, octets) {
        Ok(outline) => read_outlined(layout, octets, outline, cells),
        Err(refusal) => read_refused(layout, octets, refusal, cells),
    }
}
