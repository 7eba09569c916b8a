#![tactic(auto)]
// What the example programs print: texts, numbers, octets, cells and refusals, on standard output. As in a program whose output nobody reads, a write
// that fails is not told.
use std::io::{Print, Stdout};
use wire_spec::refusal::Refusal;

pub fn print(out: Stdout, text: &[u8]) {
    let _ = out.write_all(text);
}

pub fn number(out: Stdout, label: &[u8], n: u64) {
    print(out, label);
    let _ = print!(out; "{n}");
}

pub fn print_octets(out: Stdout, octets: &[u8]) {
    for octet in octets {
        let _ = print!(out; "{octet:02x}");
    }
    print(out, b"\n");
}

pub fn print_cells(out: Stdout, cells: &[u16]) {
    for cell in cells {
        let _ = print!(out; " {cell:x}");
    }
    print(out, b"\n");
}

pub fn print_refusal(out: Stdout, refusal: Refusal) {
    number(out, b"refused ", refusal.number as u64);
    number(out, b" ", refusal.index as u64);
    print(out, b"\n");
}
