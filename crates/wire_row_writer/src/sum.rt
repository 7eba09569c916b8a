// The sum of the low nine bits of words in cells (01, "Checksum").
ghost use Rattle.std.specs.Prelude.{◌≡◌, ◌%◌};
ghost use Rattle.wire_spec.specs.Words.{sum_low};

// Modulo 512: the checksum word asks no more.
pub fn sum_cells(words: &[u16]) -> u16
    ensures { result ≡ sum_low words.now % 512 }
{
    let mut sum: u16 = 0;
    for w in words {
        sum = sum.wrapping_add(*w);
    }
    sum % 512
}
