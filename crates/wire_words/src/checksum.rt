// The checksum word (01, "Checksum").
ghost use Rattle.std.specs.Prelude.{◌≡◌};
ghost use Rattle.wire_spec.specs.Words.{checksum_word};

// Of the sum of low nine bits: "modulo 512, in b8..b0; b9 is the opposite of b8".
pub fn checksum_word(sum: u16) -> u16
    ensures { result ≡ checksum_word sum }
{
    let low = sum % 512;
    low + 512 * (1 - low / 256)
}
