// One packet: whether its record comes through.
ghost use Rattle.std.specs.Prelude.{false, ◌≡◌, ◌≤◌, length, take};
ghost use Rattle.wire_spec.specs.Anc.{checksum_ok, data_count, read_anc};
ghost use Rattle.wire_spec.specs.Layout.{least_size};
ghost use Rattle.wire_spec.proofs.ResultLaws.{Passed};
ghost use Rattle.anc_tolerant_spec.specs.Tolerant.{tolerant_checks};
ghost use Rattle.anc_reader.specs.Answers.{verdict_of};
ghost use Rattle.anc_tolerant_reader.specs.Answers.{part_of, tolerate_anc};

use anc_reader::check::{check_run, zero_end};
use wire_offsets::{did_at, packet_size, words_at};
use wire_spec::count::WordCount;
use wire_spec::layout::{HEADER_NUMBERS, Layout, WORD_BITS};
use wire_spec::refusal::{Refusal, refuse_at};
use wire_words::word::fetch;

// What a packet is: its Data_Count, and whether its checksum is its own.
#[derive(Clone, Copy)]
pub struct Part {
    pub words: WordCount,
    pub own: bool,
}

// Data_Count of the packet at the front of the octets.
pub(crate) fn data_count(layout: Layout, octets: &[u8]) -> WordCount
    requires { least_size layout ≤ length octets.now }
    ensures { result.0 ≡ data_count layout octets.now }
{
    WordCount((fetch(octets, did_at(layout) + 2 * WORD_BITS) % HEADER_NUMBERS) as u8)
}

// 12 of the packet at the front of the octets, which fails its checksum and nothing before.
fn left_out(layout: Layout, octets: &[u8], index: usize) -> Result<Part, Refusal>
    requires { Passed (take 5 (tolerant_checks layout octets.now)) × (checksum_ok layout octets.now ≡ false) }
    ensures { result ≡ part_of (data_count layout octets.now) (tolerate_anc layout index octets.now) }
{
    let words = data_count(layout, octets);
    let n = words.0 as usize;
    let size = packet_size(layout, words);
    if !zero_end(octets, words_at(layout) + WORD_BITS * (n + 1), size) {
        return refuse_at(Refusal::ALIGNMENT_BIT_SET, index);
    }
    Ok(Part { words, own: false })
}

// The packet at the front of the octets, the run's packet `index`, in the strict way: a run of one.
pub(crate) fn check_packet(
    layout: Layout,
    octets: &[u8],
    index: usize,
) -> Result<WordCount, Refusal>
    ensures { result ≡ verdict_of (read_anc layout index octets.now) }
{
    let run = check_run(layout, octets, 1);
    match run {
        Ok(_) => Ok(data_count(layout, octets)),
        Err(refusal) => refuse_at(refusal.number, index),
    }
}

// The packet at the front of the octets, the run's packet `index`.
pub(crate) fn take_packet(layout: Layout, octets: &[u8], index: usize) -> Result<Part, Refusal>
    ensures { result ≡ part_of (data_count layout octets.now) (tolerate_anc layout index octets.now) }
{
    let verdict = check_packet(layout, octets, index);
    match verdict {
        Ok(words) => Ok(Part { words, own: true }),
        Err(refusal) => {
            if refusal.number != Refusal::CHECKSUM_WRONG {
                return Err(refusal);
            }
            left_out(layout, octets, index)
        }
    }
}
