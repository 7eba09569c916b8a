// A list checked and measured, without writing anything (01, refusal 20; 02, K5, refusal 16).
ghost use Rattle.std.specs.Prelude.{◌≡◌, ◌+◌, ◌^◌, ◌<◌, leb};
ghost use Rattle.wire_spec.specs.Cells.{read_list};
ghost use Rattle.wire_spec.specs.Result.{IsAccepted};
ghost use Rattle.wire_spec.specs.Writing.{no_stream};
ghost use Rattle.anc_writer.specs.Answers.{list_records, listed_of, measured_of};
ghost use Rattle.anc_writer.specs.Clear.{clear_before};

use anc_record::check::{check_record, is_clear_record};
use anc_record::header::Header;
use wire_offsets::{packet_size, plus};
use wire_spec::count::{OctetCount, WordCount};
use wire_spec::layout::Layout;
use wire_spec::refusal::{Refusal, refuse_at};

// What a list is: its records, and the octets that they take as ANC data packets.
#[derive(Clone, Copy)]
pub struct Listed {
    pub count: usize,
    pub octets: OctetCount,
}

// How many records stand before the first that has a protected word: `first` of `count`, and one record more.
fn clear_before(first: usize, count: usize, clear: bool) -> usize
    requires { count + 1 < 2 ^ 64 }
    ensures { result ≡ clear_before first count clear }
{
    if clear & (first == count) {
        return count + 1;
    }
    first
}

// All records of the list, and the octets that they take in the layout: 20 over the whole list, and then 16.
pub fn check_list(layout: Layout, cells: &[u16]) -> Result<Listed, Refusal>
    ensures { result ≡ listed_of layout (read_list cells.now) }
{
    let mut rest = cells;
    let mut octets = OctetCount(0);
    let mut count: usize = 0;
    let mut first: usize = 0;
    // Kept as a while: how many cells a turn takes is read from them.
    while rest.len() > 0 {
        let Some(front) = check_record(rest) else {
            return refuse_at(Refusal::LIST_MALFORMED, count);
        };
        let size = packet_size(layout, front.words);
        let step = Header::CELLS + (front.words.0 as usize);
        rest = &rest[step..];
        octets = plus(octets, size);
        first = clear_before(first, count, front.clear);
        count += 1;
    }
    if first < count {
        return refuse_at(Refusal::PROTECTED_WORD, first);
    }
    Ok(Listed { count, octets })
}

// A list that is written, measured in one short pass. Only where it is refused does `check_list` go through it again, to say why.
pub fn measure_list(layout: Layout, cells: &[u16]) -> Option<Listed>
    ensures { result ≡ measured_of (listed_of layout (read_list cells.now)) }
{
    let mut rest = cells;
    let mut octets = OctetCount(0);
    let mut count: usize = 0;
    // Kept as a while: how many cells a turn takes is read from them.
    while rest.len() > 0 {
        if !is_clear_record(rest) {
            return None;
        }
        let n = rest[Header::COUNT_CELL];
        let size = packet_size(layout, WordCount(n as u8));
        let step = Header::CELLS + (n as usize);
        rest = &rest[step..];
        octets = plus(octets, size);
        count += 1;
    }
    Some(Listed { count, octets })
}

// No record of the list has S or StreamNum. It asks for a list that was checked.
pub fn no_stream(cells: &[u16]) -> bool
    requires { IsAccepted (read_list cells.now) }
    ensures { result ≡ no_stream (list_records (read_list cells.now)) }
{
    let mut none = true;
    let mut rest = cells;
    // Kept as a while: how many cells a turn takes is read from them.
    while rest.len() > 0 {
        none = none & ((rest[3] == 0) & (rest[4] == 0));
        let step = Header::CELLS + (rest[Header::COUNT_CELL] as usize);
        rest = &rest[step..];
    }
    none
}

// So many octets behind `front` others are at most `most`.
pub fn fits_behind(front: usize, octets: OctetCount, most: usize) -> bool
    ensures { result ≡ leb (front + octets.0) most }
{
    if most < front {
        return false;
    }
    octets.0 <= most - front
}
