// What stands before a record's words.
ghost use Rattle.std.specs.Prelude.{◌≡◌, ◌+◌, ◌≤◌, length};
ghost use Rattle.wire_spec.specs.Anc.{InRange};
ghost use Rattle.wire_spec.specs.Cells.{cell_count, cell_record, head_cells};
ghost use Rattle.wire_spec.specs.Layout.{rfc8331};
ghost use Rattle.anc_record.specs.Answers.{found_of};
ghost use Rattle.anc_record.specs.Header.{header_at, header_of};

use crate::check::check_record;
use crate::location::{Line, Location, Offset};
use wire_spec::count::WordCount;
use wire_spec::refusal::{Refusal, refuse};

#[derive(Clone, Copy)]
pub struct Header {
    // The colour-difference channel; otherwise luma, or no such channel.
    pub c: bool,
    pub location: Location,
    // Whether `stream` tells the source data stream; it is kept all the same where not.
    pub s: bool,
    pub stream: u8,
    pub did: u8,
    pub sdid: u8,
    // Data_Count.
    pub words: WordCount,
}

impl Header {
    // Cells of a record before its words, and the last two of them: n, and the index of its packet within its field (02, K13).
    pub const CELLS: usize = 9;

    pub const COUNT_CELL: usize = 7;

    pub const INDEX_CELL: usize = 8;

    // The header of the record that starts at the cell `at`, or refusal 20.
    pub fn at(cells: &[u16], at: usize) -> Result<Header, Refusal>
        ensures { result ≡ found_of (header_at cells.now at) }
    {
        if cells.len() < at {
            return refuse(Refusal::LIST_MALFORMED);
        }
        let here = &cells[at..];
        match check_record(here) {
            Some(_) => Ok(header_of(here)),
            None => refuse(Refusal::LIST_MALFORMED),
        }
    }
}

// The header of the record at the front of the cells, which was checked.
fn header_of(cells: &[u16]) -> Header
    requires { InRange rfc8331 (cell_record cells.now) × (head_cells + cell_count cells.now ≤ length cells.now) }
    ensures { result ≡ header_of (cell_record cells.now) }
{
    Header {
        c: cells[0] == 1,
        location: Location {
            line: Line::of(cells[1]),
            offset: Offset::of(cells[2]),
        },
        s: cells[3] == 1,
        stream: cells[4] as u8,
        did: cells[5] as u8,
        sdid: cells[6] as u8,
        words: WordCount(cells[Header::COUNT_CELL] as u8),
    }
}
