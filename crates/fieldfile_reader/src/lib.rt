#![tactic(auto)]
// Field files read (01, "Field file"; 02, K2).
//
// `read_field` is the entry point, and `check::check` is `read_field` without the writing.
ghost use Rattle.std.specs.Prelude.{◌≡◌};
ghost use Rattle.fieldfile_reader.specs.Answers.{read_leaves, read_returns};

pub mod check;
pub mod field;
pub mod rules;
pub mod stages;
pub mod version;

use anc_reader::read::read_run;
use check::check;
use field::Summary;
use version::{header_size, version_at};
use wire_spec::count::OctetCount;
use wire_spec::layout::Layout;
use wire_spec::limit::READ_INDEX;
use wire_spec::refusal::{Refusal, refuse};

// Reads the field at an offset: its records into the first cells, and what stands beside them.
pub fn read_field(file: &[u8], at: OctetCount, cells: &mut [u16]) -> Result<Summary, Refusal>
    ensures value { result ≡ read_returns file.now at.0 cells.old }
    ensures cells_after { cells.new ≡ read_leaves file.now at.0 cells.old }
{
    let summary = check(file, at)?;
    if cells.len() < summary.cells {
        return refuse(Refusal::LIST_TOO_SHORT);
    }
    let from = at.0 + header_size(version_at(file));
    read_run(
        Layout::Rfc8331,
        &file[from..],
        summary.records,
        READ_INDEX,
        cells,
    );
    Ok(summary)
}
