// Packets checked, without writing anything (01, "Order of reading").
ghost use Rattle.std.specs.Prelude.{◌≡◌, true, ◌+◌, ◌*◌, ◌<◌, ◌^◌, ◌≤◌, eqb, length};
ghost use Rattle.wire_spec.specs.Anc.{anc_size, are_header_words, data_count, did_at, headers_ok, r_ok, read_anc, read_run, words_at};
ghost use Rattle.wire_spec.specs.Bits.{bits_at, row_at};
ghost use Rattle.wire_spec.specs.Layout.{least_size};
ghost use Rattle.wire_spec.specs.Words.{checksum_word, word_bits};
ghost use Rattle.wire_words.specs.Word.{WordsFit};
ghost use Rattle.anc_reader.specs.Answers.{run_of, verdict_of};
ghost use Rattle.wire_row_scan.specs.Clear.{Scanned};
ghost use Rattle.anc_reader.specs.Tests.{packet_words, read_anc_content, zero_bits};

use anc_record::header::Header;
use wire_offsets::{did_at, least_size, packet_size, plus, words_at};
use wire_row_scan::scan::{Scan, both, scan_singly, scan_words};
use wire_spec::count::{OctetCount, WordCount};
use wire_spec::layout::{
    DID_AT, DRAFT_DID_AT, DRAFT_R_AT, DRAFT_WORDS_AT, HEADER_NUMBERS, Layout, WORD_BITS,
};
use wire_spec::refusal::{Refusal, refuse_at};
use wire_words::checksum::checksum_word;
use wire_words::octet::quad_at;
use wire_words::table::HeaderWords;
use wire_words::word::fetch;

// What a run of packets is: the octets that it takes, and the cells that its records take.
#[derive(Clone, Copy)]
pub struct Run {
    pub octets: OctetCount,
    pub cells: usize,
}

// The three words from the bit `at` on: DID, SDID and Data_Count.
fn header_words_ok(octets: &[u8], at: usize, table: &HeaderWords) -> bool
    requires { WordsFit octets.now at 3 }
    ensures { result ≡ are_header_words (row_at word_bits octets.now at 3) }
{
    if !table.has(fetch(octets, at)) {
        return false;
    }
    if !table.has(fetch(octets, at + WORD_BITS)) {
        return false;
    }
    table.has(fetch(octets, at + 2 * WORD_BITS))
}

// Of DID, SDID, Data_Count and `n` user data words: one row in RFC 8331's layout, two in the drafts', where R stands between them.
fn scan_packet(layout: Layout, octets: &[u8], n: usize) -> Scan
    requires { WordsFit octets.now (did_at layout) 3 × WordsFit octets.now (words_at layout) n }
    ensures { Scanned (packet_words layout n octets.now) result.sum result.clear }
{
    if n == 0 {
        return scan_singly(octets, did_at(layout), 3);
    }
    match layout {
        Layout::Rfc8331 => scan_words(octets, DID_AT, 3 + n),
        Layout::Draft2015 => {
            let head = scan_singly(octets, DRAFT_DID_AT, 3);
            let words = scan_singly(octets, DRAFT_WORDS_AT, n);
            both(head, words)
        }
    }
}

// The word behind `n` user data words, where the low nine bits of these and of DID, SDID and Data_Count make the sum.
fn checksum_ok(layout: Layout, octets: &[u8], n: usize, sum: u16) -> bool
    requires { WordsFit octets.now (words_at layout) (n + 1) }
    ensures { result ≡ eqb (bits_at octets.now (words_at layout + word_bits * n) word_bits) (checksum_word sum) }
{
    fetch(octets, words_at(layout) + WORD_BITS * n) == checksum_word(sum)
}

// The bits behind the first `body` are zero. They stand last in the last four of the `size` octets.
pub fn zero_end(octets: &[u8], body: usize, size: OctetCount) -> bool
    requires le_size { (4 ≤ size.0) × (size.0 ≤ length octets.now) × (8 * size.0 < 2 ^ 64) }
    requires body_bound { (body ≤ 8 * size.0) × (8 * size.0 < body + 32) }
    ensures { result ≡ zero_bits octets.now body (8 * size.0) }
{
    let unit: u32 = 1 << (8 * size.0 - body);
    quad_at(octets, size.0 - 4) % unit == 0
}

// R, where the layout has it, is zero.
fn r_ok(layout: Layout, octets: &[u8]) -> bool
    requires { least_size layout ≤ length octets.now }
    ensures { result ≡ r_ok layout octets.now }
{
    match layout {
        Layout::Rfc8331 => true,
        Layout::Draft2015 => zero_end(octets, DRAFT_R_AT, OctetCount(DRAFT_WORDS_AT / 8)),
    }
}

// 15, 16, 11 and 12 of the packet at the front of the octets, which is all there and passed 10. A header word that passed is no protected word, so one
// pass over them and the user data words tells of these.
fn check_content(
    layout: Layout,
    octets: &[u8],
    words: WordCount,
    size: OctetCount,
    index: usize,
) -> Result<WordCount, Refusal>
    requires octets_value { headers_ok layout octets.now ≡ true }
    requires octets_value_2 { (data_count layout octets.now ≡ words.0) × (size.0 ≡ anc_size layout words.0) × (size.0 ≤ length octets.now) }
    ensures { result ≡ verdict_of (read_anc_content layout index octets.now) }
{
    let n = words.0 as usize;
    if !r_ok(layout, octets) {
        return refuse_at(Refusal::R_BIT_SET, index);
    }
    let scan = scan_packet(layout, octets, n);
    if !scan.clear {
        return refuse_at(Refusal::PROTECTED_WORD, index);
    }
    if !checksum_ok(layout, octets, n, scan.sum) {
        return refuse_at(Refusal::CHECKSUM_WRONG, index);
    }
    if !zero_end(octets, words_at(layout) + WORD_BITS * (n + 1), size) {
        return refuse_at(Refusal::ALIGNMENT_BIT_SET, index);
    }
    Ok(words)
}

// The packet at the front of the octets, the run's packet `index`: 9, 10, 9, and its content.
fn check_packet(
    layout: Layout,
    octets: &[u8],
    index: usize,
    table: &HeaderWords,
) -> Result<WordCount, Refusal>
    ensures { result ≡ verdict_of (read_anc layout index octets.now) }
{
    if octets.len() < least_size(layout) {
        return refuse_at(Refusal::ANC_CUT, index);
    }
    let did = did_at(layout);
    if !header_words_ok(octets, did, table) {
        return refuse_at(Refusal::HEADER_WORD_MALFORMED, index);
    }
    let words = WordCount((fetch(octets, did + 2 * WORD_BITS) % HEADER_NUMBERS) as u8);
    let size = packet_size(layout, words);
    if octets.len() < size.0 {
        return refuse_at(Refusal::ANC_CUT, index);
    }
    check_content(layout, octets, words, size, index)
}

// `count` packets at the front of the octets.
pub fn check_run(layout: Layout, octets: &[u8], count: usize) -> Result<Run, Refusal>
    ensures { result ≡ run_of layout (read_run layout 0 count octets.now) }
{
    let table = HeaderWords::new();
    let mut rest = octets;
    let mut used = OctetCount(0);
    let mut cells: usize = 0;
    for i in 0..count {
        let words = check_packet(layout, rest, i, &table)?;
        let size = packet_size(layout, words);
        rest = &rest[size.0..];
        used = plus(used, size);
        cells += Header::CELLS + (words.0 as usize);
    }
    Ok(Run {
        octets: used,
        cells,
    })
}
