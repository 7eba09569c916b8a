// Runs checked, without writing anything.
ghost use Rattle.std.specs.Prelude.{◌≡◌, ◌+◌, ◌<◌, ◌^◌};
ghost use Rattle.wire_spec.specs.Cells.{head_cells};
ghost use Rattle.anc_tolerant_spec.specs.Tolerant.{tolerate_run};
ghost use Rattle.anc_tolerant_reader.specs.Answers.{tallied, tolerant_run_of};

use crate::packet::take_packet;
use anc_record::header::Header;
use wire_offsets::packet_size;
use wire_spec::count::{OctetCount, WordCount};
use wire_spec::layout::Layout;
use wire_spec::refusal::Refusal;

// Records left out, and the cells of those that come through.
#[derive(Clone, Copy)]
pub struct Tally {
    pub omitted: usize,
    pub cells: usize,
}

// What a run of packets is: its tally, and the octets behind it.
#[derive(Clone, Copy)]
pub struct TolerantRun {
    pub tally: Tally,
    pub left: OctetCount,
}

impl Tally {
    // One packet more.
    fn plus(self, words: WordCount, own: bool) -> Tally
        requires { (self.omitted + 1 < 2 ^ 64) × (self.cells + (head_cells + words.0) < 2 ^ 64) }
        ensures { result ≡ tallied self words.0 own }
    {
        if own {
            return Tally {
                omitted: self.omitted,
                cells: self.cells + (Header::CELLS + (words.0 as usize)),
            };
        }
        Tally {
            omitted: self.omitted + 1,
            cells: self.cells,
        }
    }
}

// `count` packets at the front of the octets.
pub fn check_run(layout: Layout, octets: &[u8], count: usize) -> Result<TolerantRun, Refusal>
    ensures { result ≡ tolerant_run_of (tolerate_run layout 0 count octets.now) }
{
    let mut rest = octets;
    let mut tally = Tally {
        omitted: 0,
        cells: 0,
    };
    for i in 0..count {
        let part = take_packet(layout, rest, i)?;
        let step = packet_size(layout, part.words).0;
        rest = &rest[step..];
        tally = tally.plus(part.words, part.own);
    }
    Ok(TolerantRun {
        tally,
        left: OctetCount(rest.len()),
    })
}
