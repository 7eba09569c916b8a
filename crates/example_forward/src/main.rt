#![tactic(auto)]
// Fields that were gathered, sent on in the packets that they arrived in (02, K13). Nine packets arrive: a marked one, and then three fields, with a
// packet without records first, between and last. Each field that is whole is sent on, by the answer and the store alone: packet k has the
// records with index k, and the last packet is marked. A line each: the answer to an arrival, and the octets of a packet sent on and whether
// they are those that arrived.
ghost use Rattle.std.specs.Prelude.{◌<◌};

use anc_record::header::Header;
use depacketizer::state::Depacketizer;
use depacketizer_forward::packet_cells;
use depacketizer_spec::state::{Answer, Field};
use example_printing::{number, print, print_octets, print_refusal};
use rtp_strict_reader::packet::Head;
use std::io::Stdout;
use wire_spec::count::OctetCount;
use wire_spec::layout::Layout;
use wire_spec::number::{PacketNumber, Timestamp};
use wire_spec::refusal::Refusal;

const PACKETS: usize = 9;

// Of each packet: its records, whether it is its field's last, and the field.
const RECORDS: [u8; PACKETS] = [1, 0, 1, 3, 2, 0, 1, 3, 0];

const LAST: [bool; PACKETS] = [true, false, false, true, false, false, true, false, true];

const FIELD: [u32; PACKETS] = [1, 2, 2, 2, 3, 3, 3, 4, 4];

// What RECORDS says: none, record A of 01, record B, both.
const NONE: u8 = 0;

const ONLY_A: u8 = 1;

const ONLY_B: u8 = 2;

// Record A and record B, both with index 0.
const BOTH: [u16; 20] = [
    0, 9, 0, 0, 0, 0x41, 5, 0, 0, 1, 0x7FF, 0xFFF, 1, 3, 0x61, 2, 2, 0, 0x2AA, 0x155,
];

// Octets that a packet of both records has, and more.
const ROOM: usize = 64;

// The number of the first packet.
const FIRST: u32 = 7;

fn head(packet: u32, marker: bool, time: Timestamp, f: u8) -> Head {
    Head {
        source: 1,
        payload_type: 112,
        marker,
        number: PacketNumber(packet),
        timestamp: time,
        f,
    }
}

// The octets written, or 0.
fn size_of(stdout: Stdout, written: Result<OctetCount, Refusal>) -> usize {
    match written {
        Ok(size) => size.0,
        Err(refusal) => {
            print_refusal(stdout, refusal);
            0
        }
    }
}

// Writes packet `k` as it is sent first. The index in its cells is not written. Record A has no words, so its cells are those before them.
fn make(stdout: Stdout, k: usize, out: &mut [u8]) -> usize
    requires { k < 9 }
{
    let both = BOTH;
    let records = RECORDS;
    let last = LAST;
    let field = FIELD;
    let rfc = Layout::Rfc8331;
    let head = head(FIRST + (k as u32), last[k], Timestamp(field[k]), 2);
    if records[k] == NONE {
        return size_of(stdout, rtp_writer::write(rfc, head, &both[..0], out));
    }
    if records[k] == ONLY_A {
        return size_of(
            stdout,
            rtp_writer::write(rfc, head, &both[..Header::CELLS], out),
        );
    }
    if records[k] == ONLY_B {
        return size_of(
            stdout,
            rtp_writer::write(rfc, head, &both[Header::CELLS..], out),
        );
    }
    size_of(stdout, rtp_writer::write(rfc, head, &both, out))
}

fn same(a: &[u8], b: &[u8]) -> bool {
    if a.len() != b.len() {
        return false;
    }
    for k in 0..a.len() {
        if a[k] != b[k] {
            return false;
        }
    }
    true
}

// Prints a packet that is sent on, and whether it is packet `k` as it arrived.
fn compare(stdout: Stdout, sent: &[u8], k: usize) {
    print_octets(stdout, sent);
    if k < PACKETS {
        let mut arrived = [0u8; ROOM];
        let n = make(stdout, k, &mut arrived);
        if n <= ROOM {
            if same(sent, &arrived[..n]) {
                print(stdout, b"as it arrived\n");
                return;
            }
        }
    }
    print(stdout, b"otherwise\n");
}

// Sends packet `index` of a field on, whose first packet was `first`, from the cells behind those of the packets before it; the cells that it has.
fn send_on(stdout: Stdout, field: Field, first: usize, index: u16, cells: &[u16]) -> usize
    requires { first < 9 }
{
    let n = packet_cells(cells, index);
    if n > cells.len() {
        return 0;
    }
    let k = first + (index as usize);
    let marker = (index as usize) + 1 == field.packets;
    let head = head(FIRST + (k as u32), marker, field.timestamp, field.f);
    let mut out = [0u8; ROOM];
    let size = size_of(
        stdout,
        rtp_writer::write(Layout::Rfc8331, head, &cells[..n], &mut out),
    );
    if size <= ROOM {
        compare(stdout, &out[..size], k);
    }
    n
}

// Sends the field on that the last of its packets, `k`, made whole.
fn forward_field(stdout: Stdout, field: Field, k: usize, store: &[u16])
    requires { k < 9 }
{
    if field.packets > k {
        return;
    }
    let first = k + 1 - field.packets;
    let mut rest = store;
    for index in 0..field.packets as u16 {
        let n = send_on(stdout, field, first, index, rest);
        if n > rest.len() {
            return;
        }
        rest = &rest[n..];
    }
}

// Prints the answer to packet `k`, and sends a whole field on.
fn answer_to(stdout: Stdout, k: usize, answer: Answer, store: &[u16])
    requires { k < 9 }
{
    number(stdout, b"", FIRST as u64 + k as u64);
    match answer {
        Answer::Skipped => print(stdout, b" skipped\n"),
        Answer::Held => print(stdout, b" held\n"),
        Answer::Mixed => print(stdout, b" mixed\n"),
        Answer::Overfull => print(stdout, b" overfull\n"),
        Answer::Refused(refusal) => {
            print(stdout, b" ");
            print_refusal(stdout, refusal);
        }
        Answer::Whole(field) => {
            let cells = field.cells;
            number(stdout, b" whole records=", field.records as u64);
            number(stdout, b" cells=", cells as u64);
            number(stdout, b" packets=", field.packets as u64);
            print(stdout, b"\n");
            if cells <= store.len() {
                forward_field(stdout, field, k, &store[..cells]);
            }
        }
    }
}

// Packet `k` arrives.
fn arrive(stdout: Stdout, state: Depacketizer, k: usize, store: &mut [u16]) -> Depacketizer
    requires { k < 9 }
{
    let mut octets = [0u8; ROOM];
    let n = make(stdout, k, &mut octets);
    if n > ROOM {
        return state;
    }
    let arrival = state.arrive(Layout::Rfc8331, &octets[..n], store);
    let answer = arrival.answer;
    answer_to(stdout, k, answer, store);
    arrival.state
}

fn main(rt: HostRuntime) {
    let stdout = rt.stdout();
    let opened = Depacketizer::open(1, 112);
    let Ok(depacketizer) = opened else {
        return;
    };
    let mut now = depacketizer;
    let mut store = [0u16; 64];
    for k in 0..PACKETS {
        now = arrive(stdout, now, k, &mut store);
    }
}
