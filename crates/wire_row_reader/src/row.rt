// Rows of words, from octets to cells. The functions ask that the words lie within the octets, and that there is room for them.
ghost use Rattle.std.specs.Prelude.{◌≡◌, ◌+◌, ◌*◌, ◌≤◌, length};
ghost use Rattle.wire_spec.specs.Bits.{overwrite, row_at, splice};
ghost use Rattle.wire_spec.specs.Words.{word_bits};
ghost use Rattle.wire_words.specs.Word.{WordsFit};

use crate::lane::{eight_at, lanes, step};
use wire_words::word::{fetch, words_before_octet};

// Writes the words to the cells from `to` on. By cell: `copy_from_slice` keeps eight words out of vector code.
fn put(words: &[u16], cells: &mut [u16], to: usize)
    requires { to + length words.now ≤ length cells.old }
    ensures { cells.new ≡ splice cells.old to words.now }
{
    for (k, w) in words.iter().enumerate() {
        cells[to + k] = *w;
    }
}

// Writes `count` words, at most three, from the bit `bit` on to the cells from `to` on.
fn read_few(octets: &[u8], bit: usize, count: usize, cells: &mut [u16], to: usize)
    requires { WordsFit octets.now bit count × (to + count ≤ length cells.old) × (count ≤ 3) }
    ensures { cells.new ≡ splice cells.old to (row_at word_bits octets.now bit count) }
{
    if count == 0 {
        return;
    }
    cells[to] = fetch(octets, bit);
    if count == 1 {
        return;
    }
    cells[to + 1] = fetch(octets, bit + 10);
    if count == 2 {
        return;
    }
    cells[to + 2] = fetch(octets, bit + 20);
}

// Writes the four words from the octet `from` on to the cells from `to` on.
fn read_four(octets: &[u8], from: usize, cells: &mut [u16], to: usize)
    requires { WordsFit octets.now (8 * from) 4 × (to + 4 ≤ length cells.old) }
    ensures { cells.new ≡ splice cells.old to (row_at word_bits octets.now (8 * from) 4) }
{
    let bit = 8 * from;
    let w = fetch(octets, bit);
    let x = fetch(octets, bit + 10);
    let y = fetch(octets, bit + 20);
    let z = fetch(octets, bit + 30);
    cells[to] = w;
    cells[to + 1] = x;
    cells[to + 2] = y;
    cells[to + 3] = z;
}

// Writes `count` words, at most seven, from the octet `from` on to the cells from `to` on.
fn read_rest(octets: &[u8], from: usize, count: usize, cells: &mut [u16], to: usize)
    requires { WordsFit octets.now (8 * from) count × (to + count ≤ length cells.old) × (count ≤ 7) }
    ensures { cells.new ≡ splice cells.old to (row_at word_bits octets.now (8 * from) count) }
{
    if count < 4 {
        read_few(octets, 8 * from, count, cells, to);
        return;
    }
    read_four(octets, from, cells, to);
    read_few(octets, 8 * (from + 5), count - 4, cells, to + 4);
}

// Writes eight words a turn, from the octet `from` on, to the cells from `to` on.
// Kept as a counted loop: where the compiler sees its step, as in a `for`, a row of 255 words takes 1,110 instructions
// in place of 570.
fn read_eights(octets: &[u8], from: usize, eights: usize, cells: &mut [u16], to: usize)
    requires { WordsFit octets.now (8 * from) (8 * eights) × (to + 8 * eights ≤ length cells.old) }
    ensures { cells.new ≡ splice cells.old to (row_at word_bits octets.now (8 * from) (8 * eights)) }
{
    let m = lanes();
    let one = step(octets, &m);
    let mut k: usize = 0;
    while k < eights {
        let words = eight_at(octets, from + 10 * k, &m);
        put(&words, cells, to + 8 * k);
        k += one;
    }
}

// Writes `count` words from the bit `bit` on to the first cells.
pub fn read_words(octets: &[u8], bit: usize, count: usize, cells: &mut [u16])
    requires { WordsFit octets.now bit count × (count ≤ length cells.old) }
    ensures { cells.new ≡ overwrite (row_at word_bits octets.now bit count) cells.old }
{
    let first = words_before_octet(bit);
    if count < first {
        read_few(octets, bit, count, cells, 0);
        return;
    }
    let eights = (count - first) / 8;
    let last = first + 8 * eights;
    read_few(octets, bit, first, cells, 0);
    read_eights(octets, (bit + 10 * first) / 8, eights, cells, first);
    read_rest(octets, (bit + 10 * last) / 8, count - last, cells, last);
}
