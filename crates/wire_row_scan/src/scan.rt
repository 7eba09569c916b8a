// Rows of words in octets, passed over once for their sum (01, "Checksum") and for protected words among them (02, K5). The functions ask that the
// words lie within the octets.
ghost use Rattle.std.specs.Prelude.{◌≡◌, ◌+◌, ◌*◌, ◌%◌, ◌^◌, ◌<◌, ◌&&◌, length, nat_le, sum};
ghost use Rattle.wire_spec.specs.Bits.{Below, row_at};
ghost use Rattle.wire_spec.specs.Words.{all_clear, is_clear, word_bits, sum_low};
ghost use Rattle.wire_words.specs.Word.{WordsFit};
ghost use Rattle.wire_row_scan.specs.Clear.{Scanned, Tallied, all_high};

use wire_row_reader::lane::{eight_at, lanes, step};
use wire_words::word::{fetch, words_before_octet};

// Of words: the sum of their low nine bits, modulo 512, and whether none is protected.
#[derive(Clone, Copy)]
pub struct Scan {
    pub sum: u16,
    pub clear: bool,
}

// The same in the making: a sum that is right modulo 512, and a number that is under 8 where a word is protected.
#[derive(Clone, Copy)]
struct Tally {
    sum: u16,
    low: u16,
}

// Under 8 for a protected word: the protected ones are those around 0, modulo 1,024.
fn turned(w: u16) -> u16
    requires { w < 2 ^ word_bits }
    ensures { nat_le 8 result ≡ is_clear w }
{
    (w + 4) % 1024
}

// Of `count` words from the bit `bit` on, one a turn, as is best for a few.
fn tally_singly(octets: &[u8], bit: usize, count: usize) -> Tally
    requires { WordsFit octets.now bit count }
    ensures { Tallied (row_at word_bits octets.now bit count) result.sum result.low }
{
    let mut sum: u16 = 0;
    let mut low: u16 = 1023;
    for k in 0..count {
        let w = fetch(octets, bit + 10 * k);
        sum = sum.wrapping_add(w);
        low = turned(w).min(low);
    }
    Tally { sum, low }
}

// Adds each word to the sum of its lane.
fn add_lanes(words: &[u16], sums: &mut [u16])
    requires { length words.now ≡ length sums.old }
    ensures { sum sums.new % 512 ≡ (sum sums.old + sum_low words.now) % 512 }
{
    for (j, w) in words.iter().enumerate() {
        sums[j] = sums[j].wrapping_add(*w);
    }
}

// Tests each word in its lane.
fn test_lanes(words: &[u16], lows: &mut [u16])
    requires { (length words.now ≡ length lows.old) × Below (2 ^ word_bits) words.now }
    ensures { all_high lows.new ≡ all_high lows.old && all_clear words.now }
{
    for (j, w) in words.iter().enumerate() {
        lows[j] = lows[j].min(turned(*w));
    }
}

// The sums of all lanes together, modulo 65,536.
fn total_of(sums: &[u16]) -> u16
    ensures { result ≡ sum sums.now % 2 ^ 16 }
{
    sums.iter().fold(0, |sum: u16, x| sum.wrapping_add(*x))
}

// The least of all lanes.
fn least_of(lows: &[u16]) -> u16
    ensures { nat_le 8 result ≡ all_high lows.now }
{
    lows.iter().fold(1023, |low: u16, x| low.min(*x))
}

// Of eight words a turn, from the octet `from` on.
// Kept as a counted loop: where the compiler sees its step, as in a `for`, a row of 255 words takes 1,330 instructions
// in place of 720.
fn tally_eights(octets: &[u8], from: usize, eights: usize) -> Tally
    requires { WordsFit octets.now (8 * from) (8 * eights) }
    ensures { Tallied (row_at word_bits octets.now (8 * from) (8 * eights)) result.sum result.low }
{
    let m = lanes();
    let one = step(octets, &m);
    let mut sums: [u16; 8] = [0; 8];
    let mut lows: [u16; 8] = [1023; 8];
    let mut k: usize = 0;
    while k < eights {
        let words = eight_at(octets, from + 10 * k, &m);
        add_lanes(&words, &mut sums);
        test_lanes(&words, &mut lows);
        k += one;
    }
    Tally {
        sum: total_of(&sums),
        low: least_of(&lows),
    }
}

// Of words and the words behind them.
fn join(a: Tally, b: Tally) -> Tally
    ensures { (result.sum ≡ (a.sum + b.sum) % 2 ^ 16) × (nat_le 8 result.low ≡ nat_le 8 a.low && nat_le 8 b.low) }
{
    Tally {
        sum: a.sum.wrapping_add(b.sum),
        low: a.low.min(b.low),
    }
}

// Of `count` words from the bit `bit` on: to the first that starts an octet, eight a turn, and those that are left.
fn tally_row(octets: &[u8], bit: usize, count: usize) -> Tally
    requires { WordsFit octets.now bit count }
    ensures { Tallied (row_at word_bits octets.now bit count) result.sum result.low }
{
    if count < 8 {
        return tally_singly(octets, bit, count);
    }
    let first = words_before_octet(bit);
    let eights = (count - first) / 8;
    let last = first + 8 * eights;
    let a = tally_singly(octets, bit, first);
    let b = tally_eights(octets, (bit + 10 * first) / 8, eights);
    let c = tally_singly(octets, bit + 10 * last, count - last);
    join(join(a, b), c)
}

fn told(t: Tally) -> Scan
    ensures { (result.sum ≡ t.sum % 512) × (result.clear ≡ nat_le 8 t.low) }
{
    Scan {
        sum: t.sum % 512,
        clear: 8 <= t.low,
    }
}

// Of words and the words behind them.
pub fn both(a: Scan, b: Scan) -> Scan
    ensures { (result.sum ≡ (a.sum + b.sum) % 2 ^ 16 % 512) × (result.clear ≡ a.clear && b.clear) }
{
    Scan {
        sum: a.sum.wrapping_add(b.sum) % 512,
        clear: a.clear & b.clear,
    }
}

// Of `count` words from the bit `bit` on, one a turn.
pub fn scan_singly(octets: &[u8], bit: usize, count: usize) -> Scan
    requires { WordsFit octets.now bit count }
    ensures { Scanned (row_at word_bits octets.now bit count) result.sum result.clear }
{
    told(tally_singly(octets, bit, count))
}

// The same, eight words a turn where there are as many.
pub fn scan_words(octets: &[u8], bit: usize, count: usize) -> Scan
    requires { WordsFit octets.now bit count }
    ensures { Scanned (row_at word_bits octets.now bit count) result.sum result.clear }
{
    told(tally_row(octets, bit, count))
}
