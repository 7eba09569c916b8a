// What the calls return: a number, and the numbers that go to the caller's row. Each function asks that the
// row is long enough.
ghost use Rattle.std.specs.Prelude.{◌≤◌, length, ◌≡◌};
ghost use Rattle.capi_answer.specs.Rows.{answer_size};
ghost use Rattle.capi_packet.specs.Rows.{packet_reply, summary_row};
ghost use Rattle.wire_spec.specs.Bits.{overwrite};

use capi_answer::row::{ACCEPTED, refuse};
use capi_state::row::{flag, put};
use rtp_reader::packet::TolerantRead;
use rtp_strict_reader::packet::Summary;
use wire_spec::refusal::Refusal;

// Source, payload type, marker, packet number, timestamp, F, records, cells, records left out.
fn put_summary(summary: Summary, omitted: u8, answer: &mut [u64])
    requires { answer_size ≤ length answer.old }
    ensures { answer.new ≡ overwrite (summary_row summary omitted) answer.old }
{
    let head = summary.head;
    let number = head.number;
    let timestamp = head.timestamp;
    let values = [
        head.source as u64,
        head.payload_type as u64,
        flag(head.marker),
        number.0 as u64,
        timestamp.0 as u64,
        head.f as u64,
        summary.records as u64,
        summary.cells as u64,
        omitted as u64,
    ];
    put(&values, answer);
}

// A packet read.
pub(crate) fn reply_read(read: Result<TolerantRead, Refusal>, answer: &mut [u64]) -> u8
    requires { answer_size ≤ length answer.old }
    ensures value { result ≡ (packet_reply read).number }
    ensures answer_after { answer.new ≡ overwrite (packet_reply read).row answer.old }
{
    match read {
        Err(refusal) => refuse(refusal, answer),
        Ok(TolerantRead { summary, omitted }) => {
            put_summary(summary, omitted, answer);
            ACCEPTED
        }
    }
}
