#![tactic(auto)]
// Lines of the serial interface (02, K6): ANC data packets in a line of ten-bit words.
//
// `write` and `read` are the entry points: they take any line, start and list. They check all before they write anything.
ghost use Rattle.std.specs.Prelude.{◌≡◌};
ghost use Rattle.wire_spec.specs.Cells.{read_list};
ghost use Rattle.wire_spec.specs.Layout.{rfc8331};
ghost use Rattle.anc_writer.specs.Answers.{listed_of};
ghost use Rattle.sdi_spec.specs.Answers.{read_leaves, read_returns, write_leaves, write_returns};

use anc_record::check::words_in_range;
use anc_record::header::Header;
use anc_writer::check::{Listed, check_list, measure_list};
use sdi_check::check::{PACKET_WORDS, check_packets, position_fits};
use sdi_packets::reading::read_packets;
use sdi_packets::writing::write_packets;
use sdi_spec::answer::ReadLine;
use sdi_spec::position::Position;
use wire_spec::layout::Layout;
use wire_spec::refusal::{Refusal, refuse};

// "Lines hold at most 4,096 words".
pub const MAX_LINE: usize = 4096;

// A record takes so many cells more than its packet has words.
const MORE_CELLS: usize = Header::CELLS - PACKET_WORDS;

// A list is measured in one short pass. Only one that is refused is gone through again, to say why.
fn measure(cells: &[u16]) -> Result<Listed, Refusal>
    ensures { result ≡ listed_of rfc8331 (read_list cells.now) }
{
    match measure_list(Layout::Rfc8331, cells) {
        Some(listed) => Ok(listed),
        None => check_list(Layout::Rfc8331, cells),
    }
}

// Puts the records of the list into the line, from the word `start` on.
pub fn write(line: &mut [u16], start: usize, cells: &[u16]) -> Result<usize, Refusal>
    ensures value { result ≡ write_returns line.old start cells.now }
    ensures line_after { line.new ≡ write_leaves line.old start cells.now }
{
    if line.len() > MAX_LINE {
        return refuse(Refusal::LINE_TOO_LONG);
    }
    if start > line.len() {
        return refuse(Refusal::START_PAST_END);
    }
    let listed = measure(cells)?;
    let words = cells.len() - MORE_CELLS * listed.count;
    if line.len() - start < words {
        return refuse(Refusal::LINE_FULL);
    }
    write_packets(cells, &mut line[start..]);
    Ok(start + words)
}

// Finds the records in the line, from the word `start` on, and lists them at the caller's position.
pub fn read(
    line: &[u16],
    start: usize,
    position: Position,
    cells: &mut [u16],
) -> Result<ReadLine, Refusal>
    ensures value { result ≡ read_returns line.now start position cells.old }
    ensures cells_after { cells.new ≡ read_leaves line.now start position cells.old }
{
    if line.len() > MAX_LINE {
        return refuse(Refusal::LINE_TOO_LONG);
    }
    if start > line.len() {
        return refuse(Refusal::START_PAST_END);
    }
    if !position_fits(position) {
        return refuse(Refusal::LIST_MALFORMED);
    }
    if !words_in_range(line) {
        return refuse(Refusal::LINE_WORD_TOO_LARGE);
    }
    let words = &line[start..];
    let found = check_packets(words)?;
    let need = found.words + MORE_CELLS * found.count;
    if cells.len() < need {
        return refuse(Refusal::LIST_TOO_SHORT);
    }
    read_packets(words, position, cells);
    Ok(ReadLine {
        count: found.count,
        cells: need,
        end: start + found.words,
    })
}
