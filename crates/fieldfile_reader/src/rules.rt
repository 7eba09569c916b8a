// 53 and 21, for the reader and the writer.
ghost use Rattle.std.specs.Prelude.{◌≡◌};
ghost use Rattle.fieldfile_spec.specs.File.{file_f_ok, within_limits};

use wire_spec::limit::{MAX_FIELD_CELLS, MAX_FIELD_RECORDS};

// 53: F is 0, 2 or 3.
pub fn f_ok(f: u8) -> bool
    ensures { result ≡ file_f_ok f }
{
    (f == 0) | ((f == 2) | (f == 3))
}

// 21: a field's records and cells.
pub fn within_limits(records: usize, cells: usize) -> bool
    ensures { result ≡ within_limits records cells }
{
    (records <= MAX_FIELD_RECORDS) & (cells <= MAX_FIELD_CELLS)
}
