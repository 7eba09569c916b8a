// Rows of words, from cells to octets. The functions ask that the words have ten bits, and lie within the octets.
//
// Four words that start an octet fill five octets. A word times its factor is what it puts into its two octets, which it shares with its neighbours. The
// compiler makes vector code of this, where it can't see the factors, nor the step from four words to the next (`wire_words::unseen`).
ghost use Rattle.std.specs.Prelude.{◌≡◌, ◌+◌, ◌*◌, ◌^◌, ◌<◌, ◌≤◌, [], ◌∷◌, length, take, drop};
ghost use Rattle.wire_spec.specs.Bits.{Below, bits, field_bits, row, splice};
ghost use Rattle.wire_spec.specs.Words.{word_bits};
ghost use Rattle.wire_words.specs.Word.{WordsFit};
ghost use Rattle.wire_row_writer.specs.Factors.{factors, shared_octet};

use wire_words::octet::copy;
use wire_words::unseen::zero;
use wire_words::word::{store, words_before_octet};

// Of the four words, and of the word behind them, which puts nothing into their octets.
const FACTORS: [u16; 5] = [64, 16, 4, 1, 0];

fn factors() -> [u16; 5]
    ensures { result ≡ factors }
{
    FACTORS
}

// The step to the next four words: the last word's factor.
fn step(octets: &[u8], m: &[u16; 5]) -> usize
    requires { m.now ≡ factors }
    ensures { result ≡ 1 }
{
    let z = zero(octets.len());
    m[z + 3] as usize
}

// The octet that ends word `j` of the four, `a`, and starts the next, `b`; `z` is 0.
fn shared_octet(a: u16, b: u16, m: &[u16; 5], z: usize, j: usize) -> u8
    requires { (a < 2 ^ word_bits) × (b < 2 ^ word_bits) × (m.now ≡ factors) × (z ≡ 0) × (j < 4) }
    ensures { result ≡ shared_octet a b j }
{
    (a * m[z + j] % 256 + b * m[z + j + 1] / 256) as u8
}

// The octets of four words; `e` is the word behind them, and `z` is 0.
fn five_octets(a: u16, b: u16, c: u16, d: u16, e: u16, m: &[u16; 5], z: usize) -> [u8; 5]
    requires { Below (2 ^ word_bits) (a ∷ b ∷ c ∷ d ∷ e ∷ []) × (m.now ≡ factors) × (z ≡ 0) }
    ensures { bits result ≡ field_bits (row word_bits (a ∷ b ∷ c ∷ d ∷ [])) }
{
    [
        (a / 4) as u8,
        shared_octet(a, b, m, z, 0),
        shared_octet(b, c, m, z, 1),
        shared_octet(c, d, m, z, 2),
        shared_octet(d, e, m, z, 3),
    ]
}

// Stores the four words from `j` on, behind which there is another, from the octet `at` on; every other bit stays.
fn store_four(words: &[u16], j: usize, octets: &mut [u8], at: usize, m: &[u16; 5])
    requires { Below (2 ^ word_bits) words.now × (j + 4 < length words.now) × (at + 5 ≤ length octets.old) × (m.now ≡ factors) }
    ensures { bits octets.new ≡ splice (bits octets.old) (8 * at) (field_bits (row word_bits (take 4 (drop j words.now)))) }
{
    let z = zero(octets.len());
    let five = five_octets(
        words[j],
        words[j + 1],
        words[j + 2],
        words[j + 3],
        words[j + 4],
        m,
        z,
    );
    copy(&five, &mut octets[at..]);
}

// Stores the first words from the octet `from` on, four a turn, where another is behind them; every other bit stays.
// Kept as a counted loop: where the compiler sees its step, as in a `for`, packets of 62 records of 255 words take
// 17.5 µs in place of 14.9.
fn write_fours(words: &[u16], fours: usize, octets: &mut [u8], from: usize)
    requires { WordsFit octets.old (8 * from) (4 * fours) × Below (2 ^ word_bits) words.now × (4 * fours < length words.now) }
    ensures { bits octets.new ≡ splice (bits octets.old) (8 * from) (field_bits (row word_bits (take (4 * fours) words.now))) }
{
    let m = factors();
    let one = step(octets, &m);
    let mut k: usize = 0;
    while k < fours {
        store_four(words, 4 * k, octets, from + 5 * k, &m);
        k += one;
    }
}

// Stores at most four words from the bit `bit` on; every other bit stays.
pub fn write_few(words: &[u16], octets: &mut [u8], bit: usize)
    requires { WordsFit octets.old bit (length words.now) × Below (2 ^ word_bits) words.now × (length words.now ≤ 4) }
    ensures { bits octets.new ≡ splice (bits octets.old) bit (field_bits (row word_bits words.now)) }
{
    if words.len() == 0 {
        return;
    }
    store(octets, bit, words[0]);
    if words.len() == 1 {
        return;
    }
    store(octets, bit + 10, words[1]);
    if words.len() == 2 {
        return;
    }
    store(octets, bit + 20, words[2]);
    if words.len() == 3 {
        return;
    }
    store(octets, bit + 30, words[3]);
}

// Stores the words from the bit `bit` on, one a turn; every other bit stays.
pub fn write_singly(words: &[u16], octets: &mut [u8], bit: usize)
    requires { WordsFit octets.old bit (length words.now) × Below (2 ^ word_bits) words.now }
    ensures { bits octets.new ≡ splice (bits octets.old) bit (field_bits (row word_bits words.now)) }
{
    for (k, w) in words.iter().enumerate() {
        store(octets, bit + 10 * k, *w);
    }
}

// Stores the words from the octet `from` on, at least one, most of them four a turn; every other bit stays.
fn write_from_octet(words: &[u16], octets: &mut [u8], from: usize)
    requires { WordsFit octets.old (8 * from) (length words.now) × Below (2 ^ word_bits) words.now × (0 < length words.now) }
    ensures { bits octets.new ≡ splice (bits octets.old) (8 * from) (field_bits (row word_bits words.now)) }
{
    let fours = (words.len() - 1) / 4;
    let last = 4 * fours;
    write_fours(words, fours, octets, from);
    write_few(&words[last..], octets, 8 * (from + 5 * fours));
}

// Stores the words from the bit `bit` on; every other bit stays.
pub fn write_words(words: &[u16], octets: &mut [u8], bit: usize)
    requires { WordsFit octets.old bit (length words.now) × Below (2 ^ word_bits) words.now }
    ensures { bits octets.new ≡ splice (bits octets.old) bit (field_bits (row word_bits words.now)) }
{
    let first = words_before_octet(bit);
    if words.len() <= first {
        write_few(words, octets, bit);
        return;
    }
    write_few(&words[..first], octets, bit);
    write_from_octet(&words[first..], octets, (bit + 10 * first) / 8);
}
