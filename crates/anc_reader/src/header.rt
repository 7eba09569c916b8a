// What stands before a packet's words, from octets to cells: the numbers as they are, which are those of the record's header.
ghost use Rattle.std.specs.Prelude.{◌≡◌, ◌≤◌, length};
ghost use Rattle.wire_spec.specs.Anc.{anc_record, data_count};
ghost use Rattle.wire_spec.specs.Bits.{overwrite};
ghost use Rattle.wire_spec.specs.Cells.{head_cells};
ghost use Rattle.wire_spec.specs.Layout.{least_size};
ghost use Rattle.anc_record.specs.Header.{header_cells, header_of};
ghost use Rattle.anc_reader.specs.Tests.{stream_octet};

use anc_record::header::Header;
use wire_offsets::did_at;
use wire_spec::count::WordCount;
use wire_spec::layout::{HEADER_NUMBERS, Layout, WORD_BITS};
use wire_words::word::fetch;

// The octet of S and StreamNum, which the drafts do not have: it reads as 0.
fn stream_octet(layout: Layout, octet: u8) -> u16
    ensures { result ≡ stream_octet layout octet }
{
    match layout {
        Layout::Rfc8331 => octet as u16,
        Layout::Draft2015 => 0,
    }
}

// Writes the header of the packet at the front of the octets to the first cells, with the index of the RTP packet within its field; its Data_Count.
// It asks for the least octets of a packet, and for the cells before a record's words.
pub(crate) fn read_header(layout: Layout, octets: &[u8], index: u16, cells: &mut [u16]) -> WordCount
    requires { (least_size layout ≤ length octets.now) × (head_cells ≤ length cells.old) }
    ensures result_value { result.0 ≡ data_count layout octets.now }
    ensures cells_after { cells.new ≡ overwrite (header_cells index (header_of (anc_record layout octets.now))) cells.old }
{
    let o0 = octets[0] as u16;
    let o1 = octets[1] as u16;
    let o2 = octets[2] as u16;
    let o3 = stream_octet(layout, octets[3]);
    let did = did_at(layout);
    let n = fetch(octets, did + 2 * WORD_BITS) % HEADER_NUMBERS;
    cells[0] = o0 / 128;
    cells[1] = o0 % 128 * 16 + o1 / 16;
    cells[2] = o1 % 16 * 256 + o2;
    cells[3] = o3 / 128;
    cells[4] = o3 % 128;
    cells[5] = fetch(octets, did) % HEADER_NUMBERS;
    cells[6] = fetch(octets, did + WORD_BITS) % HEADER_NUMBERS;
    cells[Header::COUNT_CELL] = n;
    cells[Header::INDEX_CELL] = index;
    WordCount(n as u8)
}
