// Packets of a line checked, without writing anything.
ghost use Rattle.std.specs.Prelude.{◌≡◌, ◌+◌, ◌≤◌, length, take};
ghost use Rattle.wire_spec.specs.Anc.{are_header_words};
ghost use Rattle.sdi_spec.specs.declared.position.Position.{Position};
ghost use Rattle.sdi_spec.specs.Passes.{found_of, verdict_of};
ghost use Rattle.sdi_spec.specs.Line.{position_ok};
ghost use Rattle.sdi_spec.specs.Packets.{has_flag, line_count, packets_in, sum_ok};

use anc_record::check::words_clear;
use sdi_spec::answer::Found;
use sdi_spec::position::Position;
use wire_row_writer::sum::sum_cells;
use wire_spec::layout::{
    FLAG_NUMBERS, HEADER_NUMBERS, LINE_NUMBERS, OFFSET_NUMBERS, STREAM_NUMBERS,
};
use wire_spec::refusal::{Refusal, refuse_at};
use wire_words::checksum::checksum_word;
use wire_words::table::HeaderWords;

// Words of the flag, those that a packet has behind it beside its user data words, and both.
pub const FLAG_WORDS: usize = 3;

pub const FIXED_WORDS: usize = 4;

pub const PACKET_WORDS: usize = FLAG_WORDS + FIXED_WORDS;

// Each number of the position fits its field.
pub fn position_fits(position: Position) -> bool
    ensures { result ≡ position_ok position }
{
    (position.c < FLAG_NUMBERS)
        & ((position.line < LINE_NUMBERS)
            & ((position.offset < OFFSET_NUMBERS)
                & ((position.s < FLAG_NUMBERS) & (position.stream < STREAM_NUMBERS))))
}

// A whole flag stands at the front.
#[tactic(auto, unfolding(sdi_spec::specs::Packets::has_flag))]
pub fn has_flag(words: &[u16]) -> bool
    ensures { result ≡ has_flag words.now }
{
    matches!(words, [0x000, 0x3FF, 0x3FF, ..])
}

// DID, SDID and Data_Count.
fn header_words_ok(words: &[u16], table: &HeaderWords) -> bool
    requires { 3 ≤ length words.now }
    ensures { result ≡ are_header_words (take 3 words.now) }
{
    if !table.has(words[0]) {
        return false;
    }
    if !table.has(words[1]) {
        return false;
    }
    table.has(words[2])
}

// Data_Count's number.
pub fn data_count(words: &[u16]) -> usize
    requires { 3 ≤ length words.now }
    ensures { result ≡ line_count words.now }
{
    (words[2] % HEADER_NUMBERS) as usize
}

fn checksum_ok(words: &[u16], n: usize) -> bool
    requires { (n ≡ line_count words.now) × (4 + n ≤ length words.now) }
    ensures { result ≡ sum_ok words.now }
{
    let end = 3 + n;
    let sum = sum_cells(&words[0..end]);
    words[end] == checksum_word(sum)
}

// The packet whose words behind the flag stand at the front, the line's packet `index`.
fn check_packet(words: &[u16], index: usize, table: &HeaderWords) -> Result<usize, Refusal>
    ensures { result ≡ verdict_of index words.now }
{
    if words.len() < FIXED_WORDS {
        return refuse_at(Refusal::ANC_CUT, index);
    }
    if !header_words_ok(words, table) {
        return refuse_at(Refusal::HEADER_WORD_MALFORMED, index);
    }
    let n = data_count(words);
    if words.len() < FIXED_WORDS + n {
        return refuse_at(Refusal::ANC_CUT, index);
    }
    let end = 3 + n;
    if !words_clear(&words[3..end]) {
        return refuse_at(Refusal::PROTECTED_WORD, index);
    }
    if !checksum_ok(words, n) {
        return refuse_at(Refusal::CHECKSUM_WRONG, index);
    }
    Ok(n)
}

// The packets at the front, as long as a flag follows directly; the position has no part in it.
pub fn check_packets(words: &[u16]) -> Result<Found, Refusal>
    ensures { (P : Position) → result ≡ found_of (packets_in P words.now) }
{
    let table = HeaderWords::new();
    let mut rest = words;
    let mut count: usize = 0;
    let mut used: usize = 0;
    // Kept as a while: how many words a turn takes is read from them.
    while has_flag(rest) {
        let n = check_packet(&rest[FLAG_WORDS..], count, &table)?;
        let step = PACKET_WORDS + n;
        rest = &rest[step..];
        used += step;
        count += 1;
    }
    Ok(Found { count, words: used })
}
