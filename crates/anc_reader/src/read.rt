// Packets that were checked, read out as cells. The functions ask that the check accepted what they read.
ghost use Rattle.std.specs.Prelude.{◌≡◌, ◌+◌, ◌≤◌, length};
ghost use Rattle.wire_spec.specs.Anc.{anc_record, anc_size, data_count, read_run};
ghost use Rattle.wire_spec.specs.Bits.{overwrite, row_at};
ghost use Rattle.wire_spec.specs.Cells.{cells_in, head_cells};
ghost use Rattle.wire_spec.specs.Result.{IsAccepted};
ghost use Rattle.wire_spec.specs.Words.{word_bits};
ghost use Rattle.wire_words.specs.Word.{WordsFit};
ghost use Rattle.anc_reader.specs.Answers.{run_cells_in};

use crate::header::read_header;
use anc_record::header::Header;
use wire_offsets::packet_size;
use wire_row_reader::row::read_words;
use wire_spec::count::WordCount;
use wire_spec::layout::{DRAFT_WORDS_AT, Layout, WORD_BITS, WORDS_AT};
use wire_words::word::fetch;

// Writes `count` words from the bit `bit` on to the first cells, one a turn.
fn read_singly(octets: &[u8], bit: usize, count: usize, cells: &mut [u16])
    requires { WordsFit octets.now bit count × (count ≤ length cells.old) }
    ensures { cells.new ≡ overwrite (row_at word_bits octets.now bit count) cells.old }
{
    for k in 0..count {
        cells[k] = fetch(octets, bit + WORD_BITS * k);
    }
}

// Writes the record of the packet at the front of the octets to the first cells; its Data_Count. An arm for each layout, so that RFC 8331's words
// are read from a place that is known; those of the drafts are read one by one.
fn read_packet(layout: Layout, octets: &[u8], index: u16, cells: &mut [u16]) -> WordCount
    requires octets_in_bounds { anc_size layout (data_count layout octets.now) ≤ length octets.now }
    requires octets_in_bounds_2 { head_cells + data_count layout octets.now ≤ length cells.old }
    ensures result_value { result.0 ≡ data_count layout octets.now }
    ensures cells_after { cells.new ≡ overwrite (cells_in index (anc_record layout octets.now)) cells.old }
{
    match layout {
        Layout::Rfc8331 => {
            let words = read_header(Layout::Rfc8331, octets, index, cells);
            let n = words.0 as usize;
            read_words(octets, WORDS_AT, n, &mut cells[Header::CELLS..]);
            words
        }
        Layout::Draft2015 => {
            let words = read_header(Layout::Draft2015, octets, index, cells);
            let n = words.0 as usize;
            read_singly(octets, DRAFT_WORDS_AT, n, &mut cells[Header::CELLS..]);
            words
        }
    }
}

// Writes the records of `count` packets at the front of the octets to the first cells; `index` is that of their RTP packet within its field, 0 where
// they are of no field that is gathered (02, K13).
pub fn read_run(layout: Layout, octets: &[u8], count: usize, index: u16, cells: &mut [u16])
    requires accepted { IsAccepted (read_run layout 0 count octets.now) }
    requires octets_in_bounds { length (run_cells_in index (read_run layout 0 count octets.now)) ≤ length cells.old }
    ensures { cells.new ≡ overwrite (run_cells_in index (read_run layout 0 count octets.now)) cells.old }
{
    let mut rest = octets;
    let mut to: usize = 0;
    for i in 0..count {
        let words = read_packet(layout, rest, index, &mut cells[to..]);
        let size = packet_size(layout, words);
        let step = size.0;
        rest = &rest[step..];
        to += Header::CELLS + (words.0 as usize);
    }
}
