// Lines of the serial interface.
ghost use Rattle.capi_file.specs.Calls.{line_cells, line_read_reply, line_words, line_write_reply, position_of};
ghost use Rattle.wire_spec.specs.Bits.{overwrite};
ghost use Rattle.std.specs.Prelude.{◌≡◌};

use crate::answer::{reply_line_read, reply_line_written};
use capi_answer::length::{ANSWER_SIZE, ROW_TOO_SHORT};
use sdi_spec::position::Position;

// Puts the records of the cells into the line, from the word `start` on.
#[unsafe(no_mangle)]
pub extern "C" fn jibhotran_line_write(
    line: &mut [u16],
    start: usize,
    cells: &[u16],
    answer: &mut [u64],
) -> u8
    ensures value { result ≡ (line_write_reply line.old start cells.now answer.old).number }
    ensures line_after { line.new ≡ line_words line.old start cells.now answer.old }
    ensures answer_after { answer.new ≡ overwrite (line_write_reply line.old start cells.now answer.old).row answer.old }
{
    if answer.len() < ANSWER_SIZE {
        return ROW_TOO_SHORT;
    }
    let written = sdi::write(line, start, cells);
    reply_line_written(written, answer)
}

// Finds the records in the line, from the word `start` on, and lists them at the caller's position.
#[unsafe(no_mangle)]
pub extern "C" fn jibhotran_line_read(
    line: &[u16],
    start: usize,
    c: u16,
    line_number: u16,
    offset: u16,
    s: u16,
    stream: u16,
    cells: &mut [u16],
    answer: &mut [u64],
) -> u8
    ensures value { result ≡ (line_read_reply line.now start (position_of c line_number offset s stream) cells.old answer.old).number }
    ensures cells_after { cells.new ≡ line_cells line.now start (position_of c line_number offset s stream) cells.old answer.old }
    ensures answer_after { answer.new ≡ overwrite (line_read_reply line.now start (position_of c line_number offset s stream) cells.old answer.old).row answer.old }
{
    if answer.len() < ANSWER_SIZE {
        return ROW_TOO_SHORT;
    }
    let position = Position {
        c,
        line: line_number,
        offset,
        s,
        stream,
    };
    let read = sdi::read(line, start, position, cells);
    reply_line_read(read, answer)
}
