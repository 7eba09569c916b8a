// What stands before a record's words, from cells to octets. The functions ask for a record that was checked, and for the room.
ghost use Rattle.std.specs.Prelude.{◌≡◌, ◌+◌, ◌%◌, ◌≤◌, length};
ghost use Rattle.wire_spec.specs.Anc.{WellFormed, header_fields, location_fields};
ghost use Rattle.wire_spec.specs.Bits.{bits, field_bits, overwrite, pack, row, splice};
ghost use Rattle.wire_spec.specs.Cells.{cell_count, cell_record, head_cells};
ghost use Rattle.wire_spec.specs.Layout.{least_size, rfc8331};
ghost use Rattle.wire_spec.specs.Words.{sum_low, word_bits};
ghost use Rattle.wire_words.specs.Word.{WordsFit};
ghost use Rattle.anc_writer.specs.Packet.{head_words};

use anc_record::header::Header;
use wire_row_writer::row::write_few;
use wire_row_writer::sum::sum_cells;
use wire_spec::layout::{DID_AT, DRAFT_DID_AT, DRAFT_R_AT, Layout};
use wire_words::table::HeaderWords;

// Writes the four octets before DID as RFC 8331 has them. The drafts have no S and StreamNum: there DID is stored over the fourth.
fn write_location(cells: &[u16], octets: &mut [u8])
    requires { WellFormed rfc8331 (cell_record cells.now) × (head_cells ≤ length cells.now) × (4 ≤ length octets.old) }
    ensures { octets.new ≡ overwrite (pack (location_fields rfc8331 (cell_record cells.now))) octets.old }
{
    let line = cells[1];
    let offset = cells[2];
    octets[0] = (cells[0] * 128 + line / 16) as u8;
    octets[1] = (line % 16 * 16 + offset / 256) as u8;
    octets[2] = (offset % 256) as u8;
    octets[3] = (cells[3] * 128 + cells[4]) as u8;
}

// Stores DID, SDID and Data_Count as header words from the bit `at` on; the sum of their low nine bits, modulo 512.
fn write_header_words(cells: &[u16], octets: &mut [u8], at: usize, table: &HeaderWords) -> u16
    requires well_formed { WellFormed rfc8331 (cell_record cells.now) }
    requires cells_in_bounds { (head_cells + cell_count cells.now ≤ length cells.now) × WordsFit octets.old at 3 }
    ensures value { result ≡ sum_low (head_words (cell_record cells.now)) % 512 }
    ensures octets_after { bits octets.new ≡ splice (bits octets.old) at (field_bits (row word_bits (head_words (cell_record cells.now)))) }
{
    let did = cells[5] as u8;
    let sdid = cells[6] as u8;
    let n = cells[Header::COUNT_CELL] as u8;
    let head = [table.of(did), table.of(sdid), table.of(n)];
    write_few(&head, octets, at);
    sum_cells(&head)
}

// Writes all that stands before the words; the sum of the header words' low nine bits, modulo 512. R, the drafts' last bits before the words, is what is left
// of an octet that was cleared (02, K3). An arm for each layout, so that each stores at places that are known.
pub(crate) fn write_head(
    layout: Layout,
    cells: &[u16],
    octets: &mut [u8],
    table: &HeaderWords,
) -> u16
    requires well_formed { WellFormed rfc8331 (cell_record cells.now) }
    requires cells_in_bounds { (head_cells + cell_count cells.now ≤ length cells.now) × (least_size layout ≤ length octets.old) }
    ensures value { result ≡ sum_low (head_words (cell_record cells.now)) % 512 }
    ensures octets_after { bits octets.new ≡ splice (bits octets.old) 0 (field_bits (header_fields layout (cell_record cells.now))) }
{
    match layout {
        Layout::Rfc8331 => {
            write_location(cells, octets);
            write_header_words(cells, octets, DID_AT, table)
        }
        Layout::Draft2015 => {
            octets[DRAFT_R_AT / 8] = 0;
            write_location(cells, octets);
            write_header_words(cells, octets, DRAFT_DID_AT, table)
        }
    }
}
