// RTP packets with ANC payload.
ghost use Rattle.capi_packet.specs.Calls.{head_of, read_cells, read_reply, strict_cells, strict_reply, write_octets, write_reply};
ghost use Rattle.wire_spec.specs.Bits.{overwrite};
ghost use Rattle.std.specs.Prelude.{◌≡◌};

use crate::answer::reply_read;
use capi_answer::answer::reply_written;
use capi_answer::layout::{LAST_LAYOUT, layout_of};
use capi_answer::length::{ANSWER_SIZE, LAYOUT_UNKNOWN, ROW_TOO_SHORT};
use rtp_reader::outlined::read_outlined;
use rtp_reader::packet::TolerantRead;
use rtp_reader::through::read_refused;
use rtp_strict_reader::check::check;
use rtp_strict_reader::packet::Head;
use wire_spec::number::{PacketNumber, Timestamp};

// Reads a packet of the layout in the tolerant way, the records that come through into cells. As `rtp_reader::read`, with an answer in each arm: what a
// good packet says then goes straight to the row.
#[unsafe(no_mangle)]
pub extern "C" fn jibhotran_read(
    layout: u8,
    octets: &[u8],
    cells: &mut [u16],
    answer: &mut [u64],
) -> u8
    ensures value { result ≡ (read_reply layout octets.now cells.old answer.old).number }
    ensures cells_after { cells.new ≡ read_cells layout octets.now cells.old answer.old }
    ensures answer_after { answer.new ≡ overwrite (read_reply layout octets.now cells.old answer.old).row answer.old }
{
    if answer.len() < ANSWER_SIZE {
        return ROW_TOO_SHORT;
    }
    if layout > LAST_LAYOUT {
        return LAYOUT_UNKNOWN;
    }
    let told = layout_of(layout);
    match check(told, octets) {
        Ok(outline) => {
            let read = read_outlined(told, octets, outline, cells);
            reply_read(read, answer)
        }
        Err(refusal) => {
            let read = read_refused(told, octets, refusal, cells);
            reply_read(read, answer)
        }
    }
}

// The same in the strict way: none is left out, and a wrong checksum is refused by 11.
#[unsafe(no_mangle)]
pub extern "C" fn jibhotran_read_strict(
    layout: u8,
    octets: &[u8],
    cells: &mut [u16],
    answer: &mut [u64],
) -> u8
    ensures value { result ≡ (strict_reply layout octets.now cells.old answer.old).number }
    ensures cells_after { cells.new ≡ strict_cells layout octets.now cells.old answer.old }
    ensures answer_after { answer.new ≡ overwrite (strict_reply layout octets.now cells.old answer.old).row answer.old }
{
    if answer.len() < ANSWER_SIZE {
        return ROW_TOO_SHORT;
    }
    if layout > LAST_LAYOUT {
        return LAYOUT_UNKNOWN;
    }
    let read = rtp_strict_reader::read_strict(layout_of(layout), octets, cells);
    reply_read(TolerantRead::strictly(read), answer)
}

// Writes a packet of the layout with the records of the cells; a marker other than 0 marks it.
#[unsafe(no_mangle)]
pub extern "C" fn jibhotran_write(
    layout: u8,
    source: u32,
    payload_type: u8,
    marker: u8,
    number: u32,
    timestamp: u32,
    f: u8,
    cells: &[u16],
    out: &mut [u8],
    answer: &mut [u64],
) -> u8
    ensures value { result ≡ (write_reply layout (head_of source payload_type marker number timestamp f) cells.now out.old answer.old).number }
    ensures out_after { out.new ≡ write_octets layout (head_of source payload_type marker number timestamp f) cells.now out.old answer.old }
    ensures answer_after { answer.new ≡ overwrite (write_reply layout (head_of source payload_type marker number timestamp f) cells.now out.old answer.old).row answer.old }
{
    if answer.len() < ANSWER_SIZE {
        return ROW_TOO_SHORT;
    }
    if layout > LAST_LAYOUT {
        return LAYOUT_UNKNOWN;
    }
    let head = Head {
        source,
        payload_type,
        marker: marker != 0,
        number: PacketNumber(number),
        timestamp: Timestamp(timestamp),
        f,
    };
    let written = rtp_writer::write(layout_of(layout), head, cells, out);
    reply_written(written, answer)
}
