// Rows of 64-bit numbers taken for narrower ones, and these put into such rows. Who calls these asks for rows that are long enough, and for
// numbers that fit.
ghost use Rattle.std.specs.Prelude.{true, ◌≡◌, ◌+◌, ◌≤◌, length};
ghost use Rattle.wire_spec.specs.Bits.{overwrite, splice};
ghost use Rattle.capi_egress_state.specs.Row.{Joined, all_fit, max16, max8};

// The bits of all the numbers: they fit a width exactly if each of the numbers does.
pub fn joined(numbers: &[u64]) -> u64
    ensures { Joined numbers.now result }
{
    let mut all = 0;
    for n in numbers {
        all |= *n;
    }
    all
}

// Kept as two functions for each way: generic over the width, they would need a trait of the library's own with its laws, longer than the four loops.

// Takes numbers of 8 bits out of a row.
pub fn take_octets(numbers: &[u64], out: &mut [u8])
    requires { (all_fit max8 numbers.now ≡ true) × (length numbers.now ≤ length out.old) }
    ensures { out.new ≡ overwrite numbers.now out.old }
{
    for (k, n) in numbers.iter().enumerate() {
        out[k] = *n as u8;
    }
}

// Takes numbers of 16 bits out of a row.
pub fn take_lengths(numbers: &[u64], out: &mut [u16])
    requires { (all_fit max16 numbers.now ≡ true) × (length numbers.now ≤ length out.old) }
    ensures { out.new ≡ overwrite numbers.now out.old }
{
    for (k, n) in numbers.iter().enumerate() {
        out[k] = *n as u16;
    }
}

// Puts numbers of 8 bits into a row, from `at` on.
pub fn put_octets(octets: &[u8], at: usize, row: &mut [u64])
    requires { at + length octets.now ≤ length row.old }
    ensures { row.new ≡ splice row.old at octets.now }
{
    for (k, n) in octets.iter().enumerate() {
        row[at + k] = u64::from(*n);
    }
}

// Puts numbers of 16 bits into a row, from `at` on.
pub fn put_lengths(lengths: &[u16], at: usize, row: &mut [u64])
    requires { at + length lengths.now ≤ length row.old }
    ensures { row.new ≡ splice row.old at lengths.now }
{
    for (k, n) in lengths.iter().enumerate() {
        row[at + k] = u64::from(*n);
    }
}
