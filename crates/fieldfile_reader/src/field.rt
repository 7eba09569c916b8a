// What the reader and the writer return (01, "Field file").
use wire_spec::count::OctetCount;
use wire_spec::number::Timestamp;
use wire_spec::refusal::Refusal;

// What a field says, with the number of its records and of their cells, and the offset after it.
#[derive(Clone, Copy)]
pub struct Summary {
    pub timestamp: Timestamp,
    pub f: u8,
    pub records: usize,
    pub cells: usize,
    pub next: OctetCount,
}
