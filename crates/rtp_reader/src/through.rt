// A packet that the strict way refuses. Where it does so by 11 the packet has passed 1 to 8, and is read in the tolerant way.
ghost use Rattle.std.specs.Prelude.{◌≡◌};
ghost use Rattle.wire_spec.specs.Packet.{read_content};
ghost use Rattle.anc_tolerant_spec.specs.Tolerant.{tolerate_content};
ghost use Rattle.rtp_strict_reader.specs.Answers.{checked_of};
ghost use Rattle.rtp_reader.specs.Answers.{Staged, region_of, tolerant_of};
ghost use Rattle.rtp_reader.specs.Entry.{tolerant_leaves, tolerant_returns};

use crate::packet::TolerantRead;
use anc_tolerant_reader::check::check_run;
use anc_tolerant_reader::read::read_run;
use rtp_strict_reader::check::head_at;
use rtp_strict_reader::packet::Summary;
use rtp_strict_reader::stages::header_size;
use wire_offsets::payload_header_size;
use wire_spec::count::OctetCount;
use wire_spec::layout::{ANC_COUNT_AT, LENGTH_AT, Layout};
use wire_spec::refusal::{Refusal, refuse};
use wire_words::octet::pair_at;

// Where a packet's ANC data packets stand, from one octet to another, how many they are, and the octets of the header before them.
#[derive(Clone, Copy)]
pub struct Region {
    pub header: OctetCount,
    pub at: usize,
    pub end: usize,
    pub count: u8,
}

fn region_of(layout: Layout, octets: &[u8]) -> Region
    requires { Staged layout octets.now }
    ensures { result ≡ region_of layout octets.now }
{
    let header = header_size(octets);
    let from = header.0;
    let at = from + payload_header_size(layout);
    let length = pair_at(octets, from + LENGTH_AT);
    Region {
        header,
        at,
        end: at + length,
        count: octets[from + ANC_COUNT_AT],
    }
}

// The ANC data packets, and 13.
fn check_tolerant(layout: Layout, octets: &[u8]) -> Result<TolerantRead, Refusal>
    requires { Staged layout octets.now }
    ensures { result ≡ tolerant_of (tolerate_content layout octets.now) }
{
    let region = region_of(layout, octets);
    let at = region.at;
    let end = region.end;
    let count = region.count;
    let run = check_run(layout, &octets[at..end], count as usize)?;
    if run.left.0 != 0 {
        return refuse(Refusal::OCTETS_LEFT);
    }
    let tally = run.tally;
    let omitted = tally.omitted as u8;
    let head = head_at(layout, octets, region.header);
    let summary = Summary {
        head,
        records: count - omitted,
        cells: tally.cells,
    };
    Ok(TolerantRead { summary, omitted })
}

// The records that come through into the first cells, 14 before.
fn read_through(layout: Layout, octets: &[u8], cells: &mut [u16]) -> Result<TolerantRead, Refusal>
    requires { Staged layout octets.now }
    ensures value { result ≡ tolerant_returns layout octets.now cells.old }
    ensures cells_after { cells.new ≡ tolerant_leaves layout octets.now cells.old }
{
    let read = check_tolerant(layout, octets)?;
    if cells.len() < read.summary.cells {
        return refuse(Refusal::LIST_TOO_SHORT);
    }
    let region = region_of(layout, octets);
    let at = region.at;
    let end = region.end;
    read_run(layout, &octets[at..end], region.count as usize, cells);
    Ok(read)
}

// A packet that `rtp_strict_reader::check` refused: only by 11 is the answer another in the tolerant way.
pub fn read_refused(
    layout: Layout,
    octets: &[u8],
    refusal: Refusal,
    cells: &mut [u16],
) -> Result<TolerantRead, Refusal>
    requires { checked_of layout octets.now (read_content layout octets.now) ≡ Err refusal }
    ensures value { result ≡ tolerant_returns layout octets.now cells.old }
    ensures cells_after { cells.new ≡ tolerant_leaves layout octets.now cells.old }
{
    if refusal.number != Refusal::CHECKSUM_WRONG {
        return Err(refusal);
    }
    read_through(layout, octets, cells)
}
