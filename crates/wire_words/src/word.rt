// One ten-bit word, fetched from or stored to the two neighbouring octets that hold it.
ghost use Rattle.std.specs.Prelude.{◌≡◌, ℕ, ◌+◌, ◌-◌, ◌*◌, ◌/◌, ◌^◌, ◌%◌, ◌<◌, ◌≤◌};
ghost use Rattle.wire_spec.specs.Bits.{bits, bits_at, to_bits, splice};
ghost use Rattle.wire_spec.specs.Words.{word_bits};
ghost use Rattle.wire_words.specs.Word.{WordsFit, replaced};

use crate::octet::pair;
use wire_spec::layout::WORD_NUMBERS;

// Bits behind the word that starts at the bit `bit`, to the end of its second octet.
fn bits_behind(bit: usize) -> u16
    requires { bit % 8 ≤ 6 }
    ensures { result ≡ 6 - bit % 8 }
{
    (6 - bit % 8) as u16
}

// The word that starts at the bit `bit`.
pub fn fetch(octets: &[u8], bit: usize) -> u16
    requires { WordsFit octets.now bit 1 }
    ensures { result ≡ bits_at octets.now bit word_bits }
{
    let i = bit / 8;
    (pair(octets[i], octets[i + 1]) >> bits_behind(bit)) % WORD_NUMBERS
}

// The first of the two octets that hold a word: `a`, with its last bits replaced by the first of `w`, which ends `m` bits before the second.
fn first_octet(a: u8, m: u16, w: u16) -> u8
    requires { (m ≤ 6) × (w < 2 ^ word_bits) }
    ensures { (b : ℕ) → b < 256 → result ≡ replaced (a * 256 + b) m w / 256 }
{
    let u: u16 = 4 << m;
    ((a as u16) / u * u + (w << m) / 256) as u8
}

// The second: `b`, with its first bits replaced by the last of `w`.
fn second_octet(b: u8, m: u16, w: u16) -> u8
    requires { (m ≤ 6) × (w < 2 ^ word_bits) }
    ensures { (a : ℕ) → result ≡ replaced (a * 256 + b) m w % 256 }
{
    let u: u16 = 1 << m;
    ((w << m) % 256 + (b as u16) % u) as u8
}

// Stores `w` in the ten bits from the bit `bit` on; every other bit stays. Octet by octet, since what stands there was often just stored so.
pub fn store(octets: &mut [u8], bit: usize, w: u16)
    requires { WordsFit octets.old bit 1 × (w < 2 ^ word_bits) }
    ensures { bits octets.new ≡ splice (bits octets.old) bit (to_bits word_bits w) }
{
    let i = bit / 8;
    let m = bits_behind(bit);
    let a = first_octet(octets[i], m, w);
    let b = second_octet(octets[i + 1], m, w);
    octets[i] = a;
    octets[i + 1] = b;
}

// Words from the bit `bit` on before the first that starts an octet.
pub fn words_before_octet(bit: usize) -> usize
    requires { bit % 2 ≡ 0 }
    ensures { (result ≤ 3) × ((bit + 10 * result) % 8 ≡ 0) }
{
    (8 - bit % 8) / 2 % 4
}
