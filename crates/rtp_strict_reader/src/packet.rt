// What the reader returns and the writer takes (01, "Records in a lent list").

use wire_spec::count::OctetCount;
use wire_spec::number::{PacketNumber, Timestamp};

// The six values that stand beside a packet's records.
#[derive(Clone, Copy)]
pub struct Head {
    pub source: u32,
    pub payload_type: u8,
    pub marker: bool,
    pub number: PacketNumber,
    pub timestamp: Timestamp,
    pub f: u8,
}

// What a packet says, with the number of its records and of their cells.
#[derive(Clone, Copy)]
pub struct Summary {
    pub head: Head,
    pub records: u8,
    pub cells: usize,
}

// A packet that was checked: the octets before its payload header, those of its ANC data packets, and how many records and cells these are.
#[derive(Clone, Copy)]
pub struct Outline {
    pub header: OctetCount,
    pub length: OctetCount,
    pub records: usize,
    pub cells: usize,
}
