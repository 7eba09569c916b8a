// The record at the front of cells, checked (01, refusal 20; 02, K5, refusal 16; the ninth cell: 02, K13).
ghost use Rattle.std.specs.Prelude.{◌≡◌, ◌^◌, ◌≤◌, length};
ghost use Rattle.wire_spec.specs.Cells.{all_below, head_cells, head_in_range};
ghost use Rattle.wire_spec.specs.Words.{all_clear, word_bits};
ghost use Rattle.anc_record.specs.Answers.{front_of, has_words, is_clear_front};

use crate::header::Header;
use wire_spec::count::WordCount;
use wire_spec::layout::{
    FLAG_NUMBERS, HEADER_NUMBERS, LEAST_CLEAR, LINE_NUMBERS, MOST_CLEAR, OFFSET_NUMBERS,
    STREAM_NUMBERS, WORD_NUMBERS,
};
use wire_spec::limit::MAX_INDEX;

// What the record at the front of a list is: its n, and whether none of its words is a protected one.
#[derive(Clone, Copy)]
pub struct Front {
    pub words: WordCount,
    pub clear: bool,
}

// Each cell before the words fits its field.
fn head_in_range(cells: &[u16]) -> bool
    requires { head_cells ≤ length cells.now }
    ensures { result ≡ head_in_range cells.now }
{
    (cells[0] < FLAG_NUMBERS)
        & (cells[1] < LINE_NUMBERS)
        & (cells[2] < OFFSET_NUMBERS)
        & (cells[3] < FLAG_NUMBERS)
        & (cells[4] < STREAM_NUMBERS)
        & (cells[5] < HEADER_NUMBERS)
        & (cells[6] < HEADER_NUMBERS)
        & (cells[Header::COUNT_CELL] < HEADER_NUMBERS)
        & (cells[Header::INDEX_CELL] <= MAX_INDEX)
}

// Each word fits ten bits. It looks at all of them, so that the compiler looks at eight at once.
pub fn words_in_range(words: &[u16]) -> bool
    ensures { result ≡ all_below (2 ^ word_bits) words.now }
{
    let mut fit = true;
    for w in words {
        fit = fit & (*w < WORD_NUMBERS);
    }
    fit
}

// No word is a protected one.
pub fn words_clear(words: &[u16]) -> bool
    ensures { result ≡ all_clear words.now }
{
    let mut clear = true;
    for w in words {
        clear = clear & ((LEAST_CLEAR <= *w) & (*w <= MOST_CLEAR));
    }
    clear
}

// The cells before the words fit their fields, and as many words stand behind them as n says.
fn has_words(cells: &[u16]) -> bool
    ensures { result ≡ has_words cells.now }
{
    if cells.len() < Header::CELLS {
        return false;
    }
    let end = Header::CELLS + (cells[Header::COUNT_CELL] as usize);
    head_in_range(cells) & (end <= cells.len())
}

// A record without a protected word stands at the front of the cells. Words that are clear fit ten bits.
pub fn is_clear_record(cells: &[u16]) -> bool
    ensures { result ≡ is_clear_front (front_of cells.now) }
{
    if !has_words(cells) {
        return false;
    }
    let end = Header::CELLS + (cells[Header::COUNT_CELL] as usize);
    words_clear(&cells[Header::CELLS..end])
}

// The record at the front of the cells. Words are looked at twice only where one is protected or too large.
pub fn check_record(cells: &[u16]) -> Option<Front>
    ensures { result ≡ front_of cells.now }
{
    if !has_words(cells) {
        return None;
    }
    let n = cells[Header::COUNT_CELL] as usize;
    let end = Header::CELLS + n;
    let words = WordCount(n as u8);
    if words_clear(&cells[Header::CELLS..end]) {
        return Some(Front { words, clear: true });
    }
    if words_in_range(&cells[Header::CELLS..end]) {
        return Some(Front {
            words,
            clear: false,
        });
    }
    None
}
