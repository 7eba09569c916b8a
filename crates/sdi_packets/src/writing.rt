// Records that were checked, put into a line.
ghost use Rattle.std.specs.Prelude.{◌≡◌, ◌+◌, ◌<◌, ◌≤◌, length};
ghost use Rattle.wire_spec.specs.Anc.{WellFormed};
ghost use Rattle.wire_spec.specs.Bits.{overwrite, splice};
ghost use Rattle.wire_spec.specs.Cells.{cell_count, cell_record, head_cells, read_list};
ghost use Rattle.wire_spec.specs.Layout.{rfc8331};
ghost use Rattle.wire_spec.specs.Result.{IsAccepted};
ghost use Rattle.wire_spec.specs.Words.{header_numbers};
ghost use Rattle.sdi_spec.specs.Passes.{front_of, list_stretch, summed_at};
ghost use Rattle.sdi_spec.specs.Packets.{packet_words};

use crate::reading::copy;
use anc_record::header::Header;
use sdi_check::check::PACKET_WORDS;
use wire_row_writer::sum::sum_cells;
use wire_words::checksum::checksum_word;
use wire_words::table::HeaderWords;

// Writes the flag, DID, SDID and Data_Count.
fn put_front(did: u8, sdid: u8, n: u8, words: &mut [u16], table: &HeaderWords)
    requires { 6 ≤ length words.old }
    ensures { words.new ≡ overwrite (front_of did sdid n) words.old }
{
    words[0] = 0x000;
    words[1] = 0x3FF;
    words[2] = 0x3FF;
    words[3] = table.of(did);
    words[4] = table.of(sdid);
    words[5] = table.of(n);
}

// Writes the checksum of the packet with `n` user data words, all before it being there.
fn put_checksum(n: usize, words: &mut [u16])
    requires { (n < header_numbers) × (7 + n ≤ length words.old) }
    ensures { words.new ≡ summed_at n words.old }
{
    let end = 6 + n;
    let sum = sum_cells(&words[3..end]);
    words[end] = checksum_word(sum);
}

// Writes the packet of the record at the front of the cells to the first words; its Data_Count.
fn write_packet(cells: &[u16], words: &mut [u16], table: &HeaderWords) -> usize
    requires well_formed { WellFormed rfc8331 (cell_record cells.now) }
    requires cells_in_bounds { (head_cells + cell_count cells.now ≤ length cells.now) × (7 + cell_count cells.now ≤ length words.old) }
    ensures value { result ≡ cell_count cells.now }
    ensures words_after { words.new ≡ overwrite (packet_words (cell_record cells.now)) words.old }
{
    let n = cells[Header::COUNT_CELL] as usize;
    put_front(cells[5] as u8, cells[6] as u8, n as u8, words, table);
    copy(
        &cells[Header::CELLS..Header::CELLS + n],
        &mut words[6..6 + n],
    );
    put_checksum(n, words);
    n
}

// Writes the packets of all records of the list to the first words.
pub fn write_packets(cells: &[u16], words: &mut [u16])
    requires { IsAccepted (read_list cells.now) × (length (list_stretch (read_list cells.now)) ≤ length words.old) }
    ensures { words.new ≡ overwrite (list_stretch (read_list cells.now)) words.old }
{
    let table = HeaderWords::new();
    let mut rest = cells;
    let mut to: usize = 0;
    // Kept as a while: how many cells a turn takes is read from them.
    while rest.len() > 0 {
        let n = write_packet(rest, &mut words[to..], &table);
        let step = Header::CELLS + n;
        rest = &rest[step..];
        to += PACKET_WORDS + n;
    }
}
