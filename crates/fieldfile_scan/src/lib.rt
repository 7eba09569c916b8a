#![tactic(auto)]
// A field file read in turns over the octets at hand (02, K14: files of any length): the head, a field's header, one ANC data packet, or the limits behind
// the last packet. The records go into a store; past the limits they are only counted, for 21 comes behind 9 to 16.
ghost use Rattle.std.specs.Prelude.{◌≡◌, ◌+◌, ◌<◌, ◌^◌, length};
ghost use Rattle.wire_spec.specs.Anc.{read_run};
ghost use Rattle.wire_spec.specs.Layout.{rfc8331};
ghost use Rattle.wire_spec.specs.Result.{IsAccepted};
ghost use Rattle.anc_reader.specs.Answers.{run_cells};
ghost use Rattle.fieldfile_scan.specs.Scan.{InReach, Reachable, counted, finished, head_scanned, header_scanned, kept, packet_scanned, part_kept, part_scanned, scan, store_then};

pub mod state;

use anc_reader::check::check_run;
use anc_reader::read::read_run;
use fieldfile_reader::rules::within_limits;
use fieldfile_reader::stages::{check_file, check_header};
use fieldfile_reader::version::{count_at, version_at};
use fieldfile_scan_spec::found::Found;
use fieldfile_spec::format::{F_AT, Version};
use state::{Part, Scanned, State};
use wire_spec::count::OctetCount;
use wire_spec::layout::Layout;
use wire_spec::limit::READ_INDEX;
use wire_spec::number::Timestamp;
use wire_spec::refusal::{Refusal, refuse, refuse_at};
use wire_words::octet::quad_at;

// The head of the file: 50, 51.
fn scan_head(window: &[u8]) -> Result<Scanned, Refusal>
    ensures { result ≡ head_scanned window.now }
{
    let size = check_file(window)?;
    Ok(Scanned::On {
        state: State::Between(version_at(window)),
        used: size,
    })
}

// The header of a field: 54, 52, 53.
fn scan_header(version: Version, window: &[u8]) -> Result<Scanned, Refusal>
    ensures { result ≡ header_scanned version window.now }
{
    if window.len() == 0 {
        return refuse(Refusal::END_OF_FILE);
    }
    let size = check_header(window, version)?;
    Ok(Scanned::On {
        state: State::Within(Part {
            version,
            timestamp: Timestamp(quad_at(window, 0)),
            f: window[F_AT],
            left: count_at(window, version),
            records: 0,
            cells: 0,
        }),
        used: size,
    })
}

// Behind the last packet: 21, or the field.
fn finish(part: Part) -> Result<Scanned, Refusal>
    ensures { result ≡ finished part }
{
    if !within_limits(part.records, part.cells) {
        return refuse(Refusal::OVER_LIMIT);
    }
    let version = part.version;
    let timestamp = part.timestamp;
    Ok(Scanned::Field {
        found: Found {
            timestamp,
            f: part.f,
            records: part.records,
            cells: part.cells,
        },
        version,
    })
}

// The cells of the packet at the front, behind those before it; past the limits none.
fn keep(part: Part, cells: usize, window: &[u8], store: &mut [u16])
    requires records_bound { (part.records + 1 < 2 ^ 64) × (part.cells + cells < 2 ^ 64) }
    requires accepted { IsAccepted (read_run rfc8331 0 1 window.now) × (length (run_cells (read_run rfc8331 0 1 window.now)) ≡ cells) }
    ensures { store.new ≡ kept part window.now store.old }
{
    let at = part.cells;
    let end = at + cells;
    if !within_limits(part.records + 1, end) {
        return;
    }
    if store.len() < end {
        return;
    }
    read_run(Layout::Rfc8331, window, 1, READ_INDEX, &mut store[at..]);
}

// One packet more.
fn count(part: Part, cells: usize) -> Part
    requires { (0 < part.left) × (part.records + 1 < 2 ^ 64) × (part.cells + cells < 2 ^ 64) }
    ensures { result ≡ counted part cells }
{
    let version = part.version;
    let timestamp = part.timestamp;
    Part {
        version,
        timestamp,
        f: part.f,
        left: part.left - 1,
        records: part.records + 1,
        cells: part.cells + cells,
    }
}

// The next packet: 9 to 16.
fn scan_packet(part: Part, window: &[u8], store: &mut [u16]) -> Result<Scanned, Refusal>
    requires { InReach part × (0 < part.left) }
    ensures value { result ≡ packet_scanned part window.now }
    ensures store_after { store.new ≡ kept part window.now store.old }
{
    match check_run(Layout::Rfc8331, window, 1) {
        Ok(run) => {
            keep(part, run.cells, window, store);
            Ok(Scanned::On {
                state: State::Within(count(part, run.cells)),
                used: run.octets,
            })
        }
        Err(refusal) => refuse_at(refusal.number, part.records),
    }
}

// In a field: the next packet, or what stands behind the last.
fn scan_part(part: Part, window: &[u8], store: &mut [u16]) -> Result<Scanned, Refusal>
    requires { InReach part }
    ensures value { result ≡ part_scanned part.left part window.now }
    ensures store_after { store.new ≡ part_kept part.left part window.now store.old }
{
    if part.left == 0 {
        return finish(part);
    }
    scan_packet(part, window, store)
}

// One turn.
pub fn turn(state: State, window: &[u8], store: &mut [u16]) -> Result<Scanned, Refusal>
    requires { Reachable state }
    ensures value { result ≡ scan state window.now }
    ensures store_after { store.new ≡ store_then state window.now store.old }
{
    match state {
        State::Start => scan_head(window),
        State::Between(version) => scan_header(version, window),
        State::Within(part) => scan_part(part, window, store),
    }
}
