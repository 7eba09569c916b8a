#![tactic(auto)]
// Writes packets with the records A and B of 01, "Marked examples", reads them back and prints both ways: the octets in hex,
// then what was read and its cells. The first four are the frames of 01, "`fieldlist`"; the last are in the layout of the drafts of
// 2015 (02, K3).
use example_printing::{number, print, print_cells, print_octets, print_refusal};
use rtp_strict_reader::packet::Head;
use std::io::Stdout;
use wire_spec::layout::Layout;
use wire_spec::number::{PacketNumber, Timestamp};

fn print_head(stdout: Stdout, head: Head) {
    let packet = head.number;
    let time = head.timestamp;
    number(stdout, b" source=", head.source as u64);
    number(stdout, b" type=", head.payload_type as u64);
    number(stdout, b" number=", packet.0 as u64);
    number(stdout, b" ts=", time.0 as u64);
    number(stdout, b" f=", head.f as u64);
    if head.marker {
        print(stdout, b" marked");
    }
}

// Reads a packet and prints what it says.
fn read_back(stdout: Stdout, layout: Layout, octets: &[u8]) {
    let mut cells = [0u16; 32];
    let read = rtp_strict_reader::read_strict(layout, octets, &mut cells);
    match read {
        Err(refusal) => print_refusal(stdout, refusal),
        Ok(summary) => {
            number(stdout, b"records=", summary.records as u64);
            let head = summary.head;
            print_head(stdout, head);
            let n = summary.cells;
            if n <= 32 {
                print_cells(stdout, &cells[..n]);
            }
        }
    }
}

// Writes a packet, prints its octets and reads it back.
fn there_and_back(stdout: Stdout, layout: Layout, head: Head, cells: &[u16]) {
    let mut out = [0u8; 64];
    let written = rtp_writer::write(layout, head, cells, &mut out);
    match written {
        Err(refusal) => print_refusal(stdout, refusal),
        Ok(size) => {
            let n = size.0;
            if n <= 64 {
                print_octets(stdout, &out[..n]);
                read_back(stdout, layout, &out[..n]);
            }
        }
    }
}

fn head(packet: u32, time: u32, f: u8) -> Head {
    Head {
        source: 1,
        payload_type: 112,
        marker: true,
        number: PacketNumber(packet),
        timestamp: Timestamp(time),
        f,
    }
}

fn main(rt: HostRuntime) {
    let stdout = rt.stdout();
    let rfc = Layout::Rfc8331;
    // The index of a packet is written in no packet, and reads as 0 (02, K13).
    let a = [0u16, 9, 0, 0, 0, 0x41, 5, 0, 4095];
    there_and_back(stdout, rfc, head(7, 1000, 2), &a);
    there_and_back(stdout, rfc, head(8, 2501, 3), &a);
    there_and_back(stdout, rfc, head(8, 2501, 3), &a);
    there_and_back(stdout, rfc, head(10, 5504, 3), &a);
    let both = [
        0u16, 9, 0, 0, 0, 0x41, 5, 0, 3, 1, 0x7FF, 0xFFF, 1, 3, 0x61, 2, 2, 4, 0x2AA, 0x155,
    ];
    there_and_back(stdout, rfc, head(0x10000, 0, 0), &both);
    // No records: 20 octets.
    there_and_back(stdout, rfc, head(0xFFFFFFFF, 0xFFFFFFFF, 0), &both[..0]);
    // 24, 20 with the record's index, 23.
    there_and_back(stdout, rfc, head(7, 1000, 1), &a);
    there_and_back(stdout, rfc, head(7, 1000, 2), &both[..10]);
    read_back(stdout, rfc, &b"too short"[..]);
    // Record A; no records: 17 octets; F and S are 25.
    let draft = Layout::Draft2015;
    there_and_back(stdout, draft, head(7, 1000, 0), &a);
    there_and_back(stdout, draft, head(7, 1000, 0), &both[..0]);
    there_and_back(stdout, draft, head(7, 1000, 2), &a);
    there_and_back(stdout, draft, head(7, 1000, 0), &both);
}
