#![tactic(auto)]
// Runs the cases of 01, "Marked examples", that are run only, through the entry points of `rtp_strict_reader` and `rtp_writer`. A line each, as
// the second program prints them (reference/src/bin/runs.rs): a name, and `written OCTETS read RECORDS CELLS SUM`,
// `read RECORDS CELLS SUM` or `refused NUMBER INDEX`.
ghost use Rattle.std.specs.Prelude.{◌<◌};

use anc_record::header::Header;
use example_printing::{number, print, print_refusal};
use rtp_strict_reader::packet::Head;
use std::io::Stdout;
use wire_spec::layout::{FRONT_SIZE, LEAST_CLEAR, Layout, MOST_CLEAR};
use wire_spec::limit::{MAX_CELLS, MAX_PACKET, MAX_RECORDS};
use wire_spec::number::{PacketNumber, Timestamp};

// Record A of 01.
const A: [u16; Header::CELLS] = [0, 9, 0, 0, 0, 0x41, 5, 0, 0];

// Where it stands in a packet that has no other record.
const A_AT: usize = FRONT_SIZE;

const A_BITS: usize = 96;

// The most words that a record has, and the cells that it then takes.
const MAX_WORDS: usize = 255;

const LONG_CELLS: usize = Header::CELLS + MAX_WORDS;

// How many words are not protected.
const CLEAR_WORDS: usize = (MOST_CLEAR - LEAST_CLEAR + 1) as usize;

fn name(stdout: Stdout, label: &[u8], n: u64) {
    number(stdout, label, n);
    print(stdout, b": ");
}

// The head of every packet.
fn head() -> Head {
    Head {
        source: 1,
        payload_type: 112,
        marker: true,
        number: PacketNumber(7),
        timestamp: Timestamp(1000),
        f: 2,
    }
}

// The sum of the cells modulo 65,536.
fn sum(cells: &[u16]) -> u16 {
    let mut total: u16 = 0;
    for cell in cells {
        total = total.wrapping_add(*cell);
    }
    total
}

// Reads a packet and prints what was read.
fn read_back(stdout: Stdout, octets: &[u8], cells: &mut [u16]) {
    let read = rtp_strict_reader::read_strict(Layout::Rfc8331, octets, cells);
    match read {
        Err(refusal) => print_refusal(stdout, refusal),
        Ok(summary) => {
            let n = summary.cells;
            number(stdout, b"read ", summary.records as u64);
            number(stdout, b" ", n as u64);
            if n <= cells.len() {
                number(stdout, b" ", sum(&cells[..n]) as u64);
            }
            print(stdout, b"\n");
        }
    }
}

// Writes a list as a packet and reads that back.
fn there_and_back(stdout: Stdout, list: &[u16], out: &mut [u8], cells: &mut [u16]) {
    let written = rtp_writer::write(Layout::Rfc8331, head(), list, out);
    match written {
        Err(refusal) => print_refusal(stdout, refusal),
        Ok(size) => {
            let n = size.0;
            number(stdout, b"written ", n as u64);
            print(stdout, b" ");
            if n <= out.len() {
                read_back(stdout, &out[..n], cells);
            }
        }
    }
}

// Records A, one after the other.
fn fill_with_a(list: &mut [u16]) {
    let a = A;
    for k in 0..list.len() {
        list[k] = a[k % Header::CELLS];
    }
}

// The words of a record where so many cells stand behind its n, the index among them.
fn words_within(behind: usize) -> u16 {
    if behind > MAX_WORDS {
        return MAX_WORDS as u16;
    }
    if behind == 0 {
        return 0;
    }
    (behind - 1) as u16
}

// The cell at an index of a list of `count` cells: records of 255 words and a shorter last one, all else as in record A. The
// words count on through the list, from 4 to 1,019 and again: those that are not protected.
fn long_cell(k: usize, count: usize) -> u16
    requires { k < count }
{
    let a = A;
    let place = k % LONG_CELLS;
    if place == Header::COUNT_CELL {
        return words_within(count - k - 1);
    }
    if place < Header::CELLS {
        return a[place];
    }
    let before = k / LONG_CELLS * MAX_WORDS;
    LEAST_CLEAR + ((before + place - Header::CELLS) % CLEAR_WORDS) as u16
}

// Records of 255 words, and a last one that fills the list.
fn fill_with_long(list: &mut [u16]) {
    let count = list.len();
    for k in 0..count {
        list[k] = long_cell(k, count);
    }
}

// So many records A, there and back.
fn run_records(stdout: Stdout, count: usize, list: &mut [u16], out: &mut [u8], cells: &mut [u16]) {
    if count <= list.len() / Header::CELLS {
        let n = count * Header::CELLS;
        fill_with_a(&mut list[..n]);
        name(stdout, b"records ", count as u64);
        there_and_back(stdout, &list[..n], out, cells);
    }
}

// So many cells of long records, there and back.
fn run_cells(stdout: Stdout, count: usize, list: &mut [u16], out: &mut [u8], cells: &mut [u16]) {
    if count <= list.len() {
        fill_with_long(&mut list[..count]);
        name(stdout, b"cells ", count as u64);
        there_and_back(stdout, &list[..count], out, cells);
    }
}

// Changes the bits of the mask in an octet; twice, and they are as before.
fn change(packet: &mut [u8], at: usize, mask: u8) {
    if at < packet.len() {
        packet[at] = packet[at] ^ mask;
    }
}

// Reads the packet with P set. Its last octet is 0, and so is then the padding.
fn run_padding(stdout: Stdout, packet: &mut [u8], cells: &mut [u16]) {
    change(packet, 0, 0x20);
    name(stdout, b"padding ", 0);
    read_back(stdout, packet, cells);
    change(packet, 0, 0x20);
}

// Reads the packet with each bit of record A changed, one at a time. Bit 0 is the most significant of its first octet.
fn run_bits(stdout: Stdout, packet: &mut [u8], cells: &mut [u16]) {
    for bit in 0..A_BITS {
        let mask = 0x80u8 >> (bit % 8);
        change(packet, A_AT + bit / 8, mask);
        name(stdout, b"bit ", bit as u64);
        read_back(stdout, packet, cells);
        change(packet, A_AT + bit / 8, mask);
    }
}

// The packet of one record A, written once, and read with changes.
fn run_changes(stdout: Stdout, out: &mut [u8], cells: &mut [u16]) {
    let a = A;
    let written = rtp_writer::write(Layout::Rfc8331, head(), &a, out);
    let Ok(size) = written else {
        return;
    };
    let n = size.0;
    if n <= out.len() {
        run_padding(stdout, &mut out[..n], cells);
        run_bits(stdout, &mut out[..n], cells);
    }
}

fn main(rt: HostRuntime) {
    let stdout = rt.stdout();
    let mut list = [0u16; MAX_CELLS + 1];
    let mut out = [0u8; MAX_PACKET];
    let mut cells = [0u16; MAX_CELLS];
    run_records(stdout, MAX_RECORDS, &mut list, &mut out, &mut cells);
    run_records(stdout, MAX_RECORDS + 1, &mut list, &mut out, &mut cells);
    run_cells(stdout, MAX_CELLS, &mut list, &mut out, &mut cells);
    run_cells(stdout, MAX_CELLS + 1, &mut list, &mut out, &mut cells);
    run_changes(stdout, &mut out, &mut cells);
}
