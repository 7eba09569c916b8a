// Field files.
ghost use Rattle.capi_file.specs.Calls.{begin_octets, begin_reply, file_cells, file_octets, file_read_reply, file_write_reply};
ghost use Rattle.wire_spec.specs.Bits.{overwrite};
ghost use Rattle.std.specs.Prelude.{◌≡◌};

use crate::answer::reply_field;
use capi_answer::answer::reply_written;
use capi_answer::length::{ANSWER_SIZE, ROW_TOO_SHORT};
use wire_spec::count::OctetCount;
use wire_spec::number::Timestamp;

// Writes the first octets of a field file.
#[unsafe(no_mangle)]
pub extern "C" fn jibhotran_file_begin(out: &mut [u8], answer: &mut [u64]) -> u8
    ensures value { result ≡ (begin_reply out.old answer.old).number }
    ensures out_after { out.new ≡ begin_octets out.old answer.old }
    ensures answer_after { answer.new ≡ overwrite (begin_reply out.old answer.old).row answer.old }
{
    if answer.len() < ANSWER_SIZE {
        return ROW_TOO_SHORT;
    }
    let written = fieldfile_writer::begin(out);
    reply_written(written, answer)
}

// Writes one field with the records of the cells.
#[unsafe(no_mangle)]
pub extern "C" fn jibhotran_file_write(
    timestamp: u32,
    f: u8,
    cells: &[u16],
    out: &mut [u8],
    answer: &mut [u64],
) -> u8
    ensures value { result ≡ (file_write_reply timestamp f cells.now out.old answer.old).number }
    ensures out_after { out.new ≡ file_octets timestamp f cells.now out.old answer.old }
    ensures answer_after { answer.new ≡ overwrite (file_write_reply timestamp f cells.now out.old answer.old).row answer.old }
{
    if answer.len() < ANSWER_SIZE {
        return ROW_TOO_SHORT;
    }
    let written = fieldfile_writer::write_field(Timestamp(timestamp), f, cells, out);
    reply_written(written, answer)
}

// Reads the field at an offset, its records into cells.
#[unsafe(no_mangle)]
pub extern "C" fn jibhotran_file_read(
    file: &[u8],
    at: usize,
    cells: &mut [u16],
    answer: &mut [u64],
) -> u8
    ensures value { result ≡ (file_read_reply file.now at cells.old answer.old).number }
    ensures cells_after { cells.new ≡ file_cells file.now at cells.old answer.old }
    ensures answer_after { answer.new ≡ overwrite (file_read_reply file.now at cells.old answer.old).row answer.old }
{
    if answer.len() < ANSWER_SIZE {
        return ROW_TOO_SHORT;
    }
    let read = fieldfile_reader::read_field(file, OctetCount(at), cells);
    reply_field(read, answer)
}
