// Where the reading of a file stands, and what a turn gives.
use fieldfile_scan_spec::found::Found;
use fieldfile_spec::format::Version;
use wire_spec::count::OctetCount;
use wire_spec::number::Timestamp;

// In a field: what its header says, the packets that are still to be read, and the records and cells that were.
#[derive(Clone, Copy)]
pub struct Part {
    pub version: Version,
    pub timestamp: Timestamp,
    pub f: u8,
    pub left: usize,
    pub records: usize,
    pub cells: usize,
}

// Before the head, before a field, or in one.
#[derive(Clone, Copy)]
pub enum State {
    Start,
    Between(Version),
    Within(Part),
}

// A field of a file of this version, or where the reading then stands, so many octets on. It is refused by 54 at the end.
#[derive(Clone, Copy)]
pub enum Scanned {
    Field { found: Found, version: Version },
    On { state: State, used: OctetCount },
}
