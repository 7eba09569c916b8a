// Packets that were checked, listed as cells.
ghost use Rattle.std.specs.Prelude.{◌≡◌, ◌+◌, ◌≤◌, length};
ghost use Rattle.wire_spec.specs.Bits.{overwrite};
ghost use Rattle.wire_spec.specs.Cells.{cells_of, head_cells};
ghost use Rattle.wire_spec.specs.Result.{IsAccepted};
ghost use Rattle.sdi_spec.specs.Passes.{found_cells, head_of};
ghost use Rattle.sdi_spec.specs.Line.{PositionFits};
ghost use Rattle.sdi_spec.specs.Packets.{line_count, line_record, packets_in};

use anc_record::header::Header;
use sdi_check::check::{FLAG_WORDS, PACKET_WORDS, data_count, has_flag};
use sdi_spec::position::Position;
use wire_spec::layout::HEADER_NUMBERS;
use wire_spec::limit::READ_INDEX;

// Writes the cells before a record's words.
fn put_head(words: &[u16], position: Position, cells: &mut [u16])
    requires { (3 ≤ length words.now) × (head_cells ≤ length cells.old) }
    ensures { cells.new ≡ overwrite (head_of position words.now) cells.old }
{
    cells[0] = position.c;
    cells[1] = position.line;
    cells[2] = position.offset;
    cells[3] = position.s;
    cells[4] = position.stream;
    cells[5] = words[0] % HEADER_NUMBERS;
    cells[6] = words[1] % HEADER_NUMBERS;
    cells[Header::COUNT_CELL] = words[2] % HEADER_NUMBERS;
    cells[Header::INDEX_CELL] = READ_INDEX;
}

// Makes `to` the same as `from`. By word: `copy_from_slice` would want `memmove` of whoever links the C library.
pub(crate) fn copy(from: &[u16], to: &mut [u16])
    requires { length from.now ≡ length to.old }
    ensures { to.new ≡ from.now }
{
    for (k, word) in from.iter().enumerate() {
        to[k] = *word;
    }
}

// Writes the record of the packet whose words behind the flag stand at the front; its Data_Count.
fn read_packet(words: &[u16], position: Position, cells: &mut [u16]) -> usize
    requires { (4 + line_count words.now ≤ length words.now) × (head_cells + line_count words.now ≤ length cells.old) }
    ensures value { result ≡ line_count words.now }
    ensures cells_after { cells.new ≡ overwrite (cells_of (line_record position words.now)) cells.old }
{
    let n = data_count(words);
    put_head(words, position, cells);
    copy(
        &words[3..3 + n],
        &mut cells[Header::CELLS..Header::CELLS + n],
    );
    n
}

// Writes the records of the packets at the front to the first cells.
pub fn read_packets(words: &[u16], position: Position, cells: &mut [u16])
    requires { PositionFits position × IsAccepted (packets_in position words.now) × (length (found_cells (packets_in position words.now)) ≤ length cells.old) }
    ensures { cells.new ≡ overwrite (found_cells (packets_in position words.now)) cells.old }
{
    let mut rest = words;
    let mut to: usize = 0;
    // Kept as a while: how many words a turn takes is read from them.
    while has_flag(rest) {
        let n = read_packet(&rest[FLAG_WORDS..], position, &mut cells[to..]);
        let step = PACKET_WORDS + n;
        rest = &rest[step..];
        to += Header::CELLS + n;
    }
}
