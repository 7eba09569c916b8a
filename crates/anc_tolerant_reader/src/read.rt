// Runs that were checked, read out as cells. The functions ask that the check accepted what they read.
ghost use Rattle.std.specs.Prelude.{◌≡◌, ◌≤◌, length};
ghost use Rattle.wire_spec.specs.Anc.{anc_size, data_count};
ghost use Rattle.wire_spec.specs.Bits.{overwrite};
ghost use Rattle.wire_spec.specs.Result.{IsAccepted};
ghost use Rattle.wire_spec.proofs.ResultLaws.{Passed};
ghost use Rattle.anc_tolerant_spec.specs.Tolerant.{tolerant_checks, tolerate_run};
ghost use Rattle.anc_tolerant_reader.specs.Answers.{own_cells, taken_cells};

use crate::packet::{check_packet, data_count};
use anc_record::header::Header;
use wire_offsets::packet_size;
use wire_spec::count::OctetCount;
use wire_spec::layout::Layout;
use wire_spec::limit::READ_INDEX;

// The octets of a packet, and the cells written of it.
#[derive(Clone, Copy)]
pub struct Step {
    pub octets: OctetCount,
    pub cells: usize,
}

// Writes the record of the packet at the front of the octets to the first cells, if its checksum is its own.
fn read_own(layout: Layout, octets: &[u8], cells: &mut [u16]) -> Step
    requires passed { Passed (tolerant_checks layout octets.now) }
    requires octets_in_bounds { length (own_cells layout octets.now) ≤ length cells.old }
    ensures octets_value { (result.octets.0 ≡ anc_size layout (data_count layout octets.now)) × (result.cells ≡ length (own_cells layout octets.now)) }
    ensures cells_after { cells.new ≡ overwrite (own_cells layout octets.now) cells.old }
{
    let verdict = check_packet(layout, octets, 0);
    let Ok(words) = verdict else {
        let words = data_count(layout, octets);
        return Step {
            octets: packet_size(layout, words),
            cells: 0,
        };
    };
    anc_reader::read::read_run(layout, octets, 1, READ_INDEX, cells);
    Step {
        octets: packet_size(layout, words),
        cells: Header::CELLS + (words.0 as usize),
    }
}

// Writes the records that come through of `count` packets at the front of the octets to the first cells.
pub fn read_run(layout: Layout, octets: &[u8], count: usize, cells: &mut [u16])
    requires accepted { IsAccepted (tolerate_run layout 0 count octets.now) }
    requires octets_in_bounds { length (taken_cells (tolerate_run layout 0 count octets.now)) ≤ length cells.old }
    ensures { cells.new ≡ overwrite (taken_cells (tolerate_run layout 0 count octets.now)) cells.old }
{
    let mut rest = octets;
    let mut to: usize = 0;
    for i in 0..count {
        let step = read_own(layout, rest, &mut cells[to..]);
        let size = step.octets.0;
        rest = &rest[size..];
        to += step.cells;
    }
}
