#![tactic(auto)]
// A field that was gathered, sent on in the packets that it arrived in (02, K13): which cells of its list came in which packet.
//
// `packet_cells` is the entry point: it takes any cells. A packet of the field is what `rtp_writer::write` makes of these cells, of no cells
// where the packet came without records; the answer whole tells how many packets there are.
ghost use Rattle.std.specs.Prelude.{◌≡◌};
ghost use Rattle.depacketizer_forward.specs.Forward.{packet_cells, record_cells};

use anc_record::check::check_record;
use anc_record::header::Header;

// The cells of the record at the front, if one stands there that came in packet `index`; else 0.
fn record_cells(cells: &[u16], index: u16) -> usize
    ensures { result ≡ record_cells index cells.now }
{
    let Some(front) = check_record(cells) else {
        return 0;
    };
    if cells[Header::INDEX_CELL] != index {
        return 0;
    }
    Header::CELLS + (front.words.0 as usize)
}

// The cells of the records at the front that came in packet `index`.
pub fn packet_cells(cells: &[u16], index: u16) -> usize
    ensures { result ≡ packet_cells index cells.now }
{
    let mut rest = cells;
    loop {
        let step = record_cells(rest, index);
        if step == 0 {
            return cells.len() - rest.len();
        }
        rest = &rest[step..];
    }
}
