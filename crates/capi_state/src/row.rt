// Rows of numbers that a caller lends. What writes to one asks that it is long enough.
ghost use Rattle.std.specs.Prelude.{◌≡◌, ◌≤◌, length};
ghost use Rattle.wire_spec.specs.Bits.{bit, overwrite};

// Writes all values to the first numbers of a row.
pub fn put(values: &[u64], row: &mut [u64])
    requires { length values.now ≤ length row.old }
    ensures { row.new ≡ overwrite values.now row.old }
{
    row[..values.len()].copy_from_slice(values);
}

// 1 for true and 0 for false.
pub fn flag(b: bool) -> u64
    ensures { result ≡ bit b }
{
    if b { 1 } else { 0 }
}
