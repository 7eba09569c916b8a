// Records that were checked, written as octets. Each function asks that the check accepted what it writes, and for the room.
ghost use Rattle.std.specs.Prelude.{◌≡◌, ◌+◌, ◌-◌, ◌*◌, ◌^◌, ◌<◌, ◌≤◌, [], ◌∷◌, length};
ghost use Rattle.wire_spec.specs.Anc.{WellFormed, anc_octets, anc_size, words_at};
ghost use Rattle.wire_spec.specs.Bits.{Below, bits, field_bits, overwrite, splice, to_bits};
ghost use Rattle.wire_spec.specs.Cells.{cell_count, cell_record, head_cells, read_list};
ghost use Rattle.wire_spec.specs.Layout.{rfc8331};
ghost use Rattle.wire_spec.specs.Result.{IsAccepted};
ghost use Rattle.wire_spec.specs.Words.{checksum_word, header_numbers, sum_low, word_bits};
ghost use Rattle.wire_words.specs.Word.{WordsFit};
ghost use Rattle.anc_writer.specs.Answers.{list_octets};
ghost use Rattle.anc_writer.specs.Packet.{summed};

use crate::head::write_head;
use anc_record::header::Header;
use wire_offsets::packet_size;
use wire_row_writer::row::{write_singly, write_words};
use wire_row_writer::sum::sum_cells;
use wire_spec::count::WordCount;
use wire_spec::layout::{DRAFT_WORDS_AT, Layout, WORD_BITS, WORDS_AT};
use wire_words::checksum::checksum_word;
use wire_words::table::HeaderWords;
use wire_words::word::store;

// Clears the last four octets of a packet, where its alignment bits stand.
fn clear_end(octets: &mut [u8], size: usize)
    requires { (4 ≤ size) × (size ≤ length octets.old) }
    ensures { octets.new ≡ splice octets.old (size - 4) (0 ∷ 0 ∷ 0 ∷ 0 ∷ []) }
{
    octets[size - 4] = 0;
    octets[size - 3] = 0;
    octets[size - 2] = 0;
    octets[size - 1] = 0;
}

// Stores the checksum word behind the user data words, which start at the bit `at`; `sum` is that of the words before them, modulo 512.
fn write_checksum(words: &[u16], octets: &mut [u8], at: usize, sum: u16)
    requires { (length words.now < header_numbers) × (sum < 512) × WordsFit octets.old at (length words.now + 1) }
    ensures { bits octets.new ≡ splice (bits octets.old) (at + word_bits * length words.now) (to_bits word_bits (checksum_word (sum + sum_low words.now))) }
{
    if words.len() == 0 {
        store(octets, at, checksum_word(sum));
        return;
    }
    let all = sum + sum_cells(words);
    store(octets, at + WORD_BITS * words.len(), checksum_word(all));
}

// Stores the user data words, and the checksum word behind them. An arm for each layout: the drafts' words are stored one by one.
fn write_user_words(layout: Layout, words: &[u16], octets: &mut [u8], sum: u16)
    requires words_len_bound { (length words.now < header_numbers) × Below (2 ^ word_bits) words.now × (sum < 512) }
    requires words_fit { WordsFit octets.old (words_at layout) (length words.now + 1) }
    ensures { bits octets.new ≡ splice (bits octets.old) (words_at layout) (field_bits (summed words.now sum)) }
{
    match layout {
        Layout::Rfc8331 => {
            write_words(words, octets, WORDS_AT);
            write_checksum(words, octets, WORDS_AT, sum);
        }
        Layout::Draft2015 => {
            write_singly(words, octets, DRAFT_WORDS_AT);
            write_checksum(words, octets, DRAFT_WORDS_AT, sum);
        }
    }
}

// Writes the record at the front of the cells as the packet at the front of the octets; its Data_Count.
fn write_packet(layout: Layout, cells: &[u16], octets: &mut [u8], table: &HeaderWords) -> WordCount
    requires well_formed { WellFormed rfc8331 (cell_record cells.now) }
    requires cells_in_bounds { head_cells + cell_count cells.now ≤ length cells.now }
    requires cells_in_bounds_2 { anc_size layout (cell_count cells.now) ≤ length octets.old }
    ensures result_value { result.0 ≡ cell_count cells.now }
    ensures octets_after { octets.new ≡ overwrite (anc_octets layout (cell_record cells.now)) octets.old }
{
    let words = WordCount(cells[Header::COUNT_CELL] as u8);
    let size = packet_size(layout, words);
    let end = Header::CELLS + (words.0 as usize);
    clear_end(octets, size.0);
    let sum = write_head(layout, cells, octets, table);
    write_user_words(layout, &cells[Header::CELLS..end], octets, sum);
    words
}

// Writes all records of the list as a run of packets.
pub fn write_run(layout: Layout, cells: &[u16], octets: &mut [u8])
    requires { IsAccepted (read_list cells.now) × (length (list_octets layout (read_list cells.now)) ≤ length octets.old) }
    ensures { octets.new ≡ overwrite (list_octets layout (read_list cells.now)) octets.old }
{
    let table = HeaderWords::new();
    let mut rest = cells;
    let mut to: usize = 0;
    // Kept as a while: how many cells a turn takes is read from them.
    while rest.len() > 0 {
        let words = write_packet(layout, rest, &mut octets[to..], &table);
        let size = packet_size(layout, words);
        let step = Header::CELLS + (words.0 as usize);
        rest = &rest[step..];
        to += size.0;
    }
}
