#![tactic(auto)]
// The raster order of the records of a packet (02, K12): each record's header tells a plain line and offset from the special values.
ghost use Rattle.std.specs.Prelude.{◌≡◌};
ghost use Rattle.wire_spec.specs.Cells.{read_list};
ghost use Rattle.wire_spec.specs.Result.{IsAccepted};
ghost use Rattle.streamcheck_spec.specs.Check.{is_lower};
ghost use Rattle.streamcheck_spec.specs.Code as code;

use anc_record::header::Header;
use anc_record::location::{Line, Location, Offset};
use streamcheck_spec::place::{Place, Scan};

// The line, then the offset: these belong before a known place.
fn is_lower(line: u16, offset: u16, place: Option<Place>) -> bool
    ensures { result ≡ is_lower line offset place }
{
    place.is_some_and(|last| {
        (line < last.line) | ((line == last.line) & (offset < last.offset))
    })
}

fn past_plain(scan: Scan, line: u16, offset: u16) -> Scan
    ensures { result ≡ code.past_plain scan line offset }
{
    Scan {
        descends: scan.descends | is_lower(line, offset, scan.place),
        place: Some(Place { line, offset }),
    }
}

fn past_offset(scan: Scan, line: u16, offset: Offset) -> Scan
    ensures { result ≡ code.past_offset scan line offset }
{
    match offset {
        Offset::Number(x) => past_plain(scan, line, x),
        Offset::Unspecified => scan,
        Offset::Horizontal => scan,
        Offset::SavToEav => scan,
        Offset::TooLarge => scan,
    }
}

// Past one record. A special line or offset is passed over.
fn past(scan: Scan, location: Location) -> Scan
    ensures { result ≡ code.past scan location }
{
    let line = location.line;
    let offset = location.offset;
    match line {
        Line::Number(x) => past_offset(scan, x, offset),
        Line::Unspecified => scan,
        Line::Vertical => scan,
        Line::TooLarge => scan,
    }
}

// Past all records of a list that was checked.
pub fn past_list(scan: Scan, cells: &[u16]) -> Scan
    requires { IsAccepted (read_list cells.now) }
    ensures { result ≡ code.past_list scan (read_list cells.now) }
{
    let mut rest = cells;
    let mut scan = scan;
    // Kept as a while: how many cells a turn takes is read from them.
    while rest.len() > 0 {
        let Ok(h) = Header::at(rest, 0) else {
            return scan;
        };
        let words = h.words;
        let location = h.location;
        scan = past(scan, location);
        let end = Header::CELLS + (words.0 as usize);
        rest = &rest[end..];
    }
    scan
}
