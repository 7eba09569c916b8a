#![tactic(auto)]
// Writes a field file with the records A and B of 01, "Marked examples", to disk, reads it back through the entry points and
// prints it: its octets in hex, then each field and its cells up to 54, and then some of the other refusals. Then the same of a
// version 1 file, which this program wrote before there was a version 2 (02, K2).
ghost use Rattle.std.specs.Prelude.{◌≤◌, length};

use example_printing::{number, print_cells, print_octets, print_refusal};
use fieldfile_spec::format::HEAD_SIZE;
use std::fs::File;
use std::io;
use std::io::{Read, Stdout, Write};
use wire_spec::count::OctetCount;
use wire_spec::number::Timestamp;

// Writes the first octets of a file.
fn begin(stdout: Stdout, to: &mut File) {
    let mut out = [0u8; 64];
    let begun = fieldfile_writer::begin(&mut out);
    match begun {
        Err(refusal) => print_refusal(stdout, refusal),
        Ok(at) => {
            let n = at.0;
            if n <= 64 {
                let _ = to.write_all(&out[..n]);
            }
        }
    }
}

// Writes a field behind what was written.
fn append(stdout: Stdout, to: &mut File, time: u32, f: u8, cells: &[u16]) {
    let mut out = [0u8; 64];
    let written = fieldfile_writer::write_field(Timestamp(time), f, cells, &mut out);
    match written {
        Err(refusal) => print_refusal(stdout, refusal),
        Ok(size) => {
            let n = size.0;
            if n <= 64 {
                let _ = to.write_all(&out[..n]);
            }
        }
    }
}

// Reads the field at an offset and prints what it says; the offset after it, or the same where it is refused.
fn show(stdout: Stdout, file: &[u8], at: usize) -> usize {
    let mut cells = [0u16; 32];
    let read = fieldfile_reader::read_field(file, OctetCount(at), &mut cells);
    match read {
        Err(refusal) => {
            print_refusal(stdout, refusal);
            at
        }
        Ok(summary) => {
            let time = summary.timestamp;
            let next = summary.next;
            number(stdout, b"at=", at as u64);
            number(stdout, b" ts=", time.0 as u64);
            number(stdout, b" f=", summary.f as u64);
            number(stdout, b" records=", summary.records as u64);
            number(stdout, b" next=", next.0 as u64);
            let n = summary.cells;
            if n <= 32 {
                print_cells(stdout, &cells[..n]);
            }
            next.0
        }
    }
}

// The file is written with two fields; of the two others one has F 1 and one a record that is cut. The index of a record's packet is not stored, and
// reads as 0 (02, K13).
fn write_file(stdout: Stdout, to: &mut File) {
    let both = [
        0u16, 9, 0, 0, 0, 0x41, 5, 0, 3, 1, 0x7FF, 0xFFF, 1, 3, 0x61, 2, 2, 4, 0x2AA, 0x155,
    ];
    begin(stdout, to);
    append(stdout, to, 1000, 2, &both[..9]);
    append(stdout, to, 7, 1, &both[..9]);
    append(stdout, to, 7, 0, &both[..10]);
    append(stdout, to, 0x01020304, 3, &both);
}

// The file, its two fields and the end.
fn show_fields(stdout: Stdout, file: &[u8]) {
    print_octets(stdout, file);
    let second = show(stdout, file, HEAD_SIZE);
    let end = show(stdout, file, second);
    show(stdout, file, end);
}

// Offsets that no field can have, a cut file, and another one.
fn show_refused(stdout: Stdout, file: &[u8]) {
    show(stdout, file, 4);
    show(stdout, file, file.len());
    if file.len() > 22 {
        show(stdout, &file[..22], HEAD_SIZE);
        show(stdout, &file[..10], HEAD_SIZE);
        show(stdout, &file[..4], HEAD_SIZE);
    }
    show(stdout, &b"not a field file"[..], HEAD_SIZE);
}

// Why a file cannot be opened.
fn tell(rt: HostRuntime, path: &str, reason: io::Error) {
    let _ = eprintln!(rt; "{path}: {reason}");
}

// Reads until the octets are full, the file ends or a read fails; how many were read.
fn read_full(file: &mut File, octets: &mut [u8]) -> usize
    ensures { result ≤ length octets.new }
{
    let mut done = 0;
    // Kept as a while: a read may take fewer octets than there is room for.
    while done < octets.len() {
        match file.read(&mut octets[done..]) {
            Ok(0) => return done,
            Ok(n) => done += n,
            Err(_) => return done,
        }
    }
    done
}

// Reads a file and shows it; `all` for refusals too.
fn read_back(rt: HostRuntime, path: &str, all: bool) {
    let stdout = rt.stdout();
    let mut back = match File::open(&rt, path) {
        Ok(back) => back,
        Err(reason) => {
            tell(rt, path, reason);
            return;
        }
    };
    let mut file = [0u8; 256];
    let got = read_full(&mut back, &mut file);
    show_fields(stdout, &file[..got]);
    if all {
        show_refused(stdout, &file[..got]);
    }
}

fn main(rt: HostRuntime) {
    let path = "fields.anf";
    match File::create(&rt, path) {
        Ok(mut made) => write_file(rt.stdout(), &mut made),
        Err(reason) => {
            tell(rt, path, reason);
            return;
        }
    }
    read_back(rt, path, true);
    read_back(rt, "version1.anf", false);
}
