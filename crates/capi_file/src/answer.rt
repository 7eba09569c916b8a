// What the calls return: a number, and the numbers that go to the caller's row. Each function asks that the
// row is long enough.
ghost use Rattle.std.specs.Prelude.{◌≤◌, length, ◌≡◌};
ghost use Rattle.capi_answer.specs.Rows.{answer_size};
ghost use Rattle.capi_file.specs.Rows.{field_reply, field_row, line_found_reply, line_written_reply};
ghost use Rattle.wire_spec.specs.Bits.{overwrite};

use capi_answer::answer::accept_size;
use capi_answer::row::{ACCEPTED, refuse};
use capi_state::row::put;
use fieldfile_reader::field::Summary as FieldSummary;
use sdi_spec::answer::ReadLine;
use wire_spec::refusal::Refusal;

// Timestamp, F, records, cells, the offset after the field.
fn put_field(field: FieldSummary, answer: &mut [u64])
    requires { answer_size ≤ length answer.old }
    ensures { answer.new ≡ overwrite (field_row field) answer.old }
{
    let timestamp = field.timestamp;
    let next = field.next;
    let values = [
        timestamp.0 as u64,
        field.f as u64,
        field.records as u64,
        field.cells as u64,
        next.0 as u64,
    ];
    put(&values, answer);
}

// A field of a file read.
pub(crate) fn reply_field(read: Result<FieldSummary, Refusal>, answer: &mut [u64]) -> u8
    requires { answer_size ≤ length answer.old }
    ensures value { result ≡ (field_reply read).number }
    ensures answer_after { answer.new ≡ overwrite (field_reply read).row answer.old }
{
    match read {
        Err(refusal) => refuse(refusal, answer),
        Ok(field) => {
            put_field(field, answer);
            ACCEPTED
        }
    }
}

// What the writer of lines answers: the word behind the written stretch.
pub(crate) fn reply_line_written(written: Result<usize, Refusal>, answer: &mut [u64]) -> u8
    requires { answer_size ≤ length answer.old }
    ensures value { result ≡ (line_written_reply written).number }
    ensures answer_after { answer.new ≡ overwrite (line_written_reply written).row answer.old }
{
    match written {
        Err(refusal) => refuse(refusal, answer),
        Ok(end) => accept_size(end, answer),
    }
}

// A line read: records, cells, the word behind the last packet.
pub(crate) fn reply_line_read(read: Result<ReadLine, Refusal>, answer: &mut [u64]) -> u8
    requires { answer_size ≤ length answer.old }
    ensures value { result ≡ (line_found_reply read).number }
    ensures answer_after { answer.new ≡ overwrite (line_found_reply read).row answer.old }
{
    match read {
        Err(refusal) => refuse(refusal, answer),
        Ok(ReadLine { count, cells, end }) => {
            let values = [count as u64, cells as u64, end as u64];
            put(&values, answer);
            ACCEPTED
        }
    }
}
