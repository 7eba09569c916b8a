// What a file has at a position (02, K14).
use wire_spec::number::Timestamp;

// What a field says, with the number of its records and of their cells.
#[derive(Clone, Copy)]
pub struct Found {
    pub timestamp: Timestamp,
    pub f: u8,
    pub records: usize,
    pub cells: usize,
}

// A field, the file's end (54), or the number that its reading was refused with.
// Kept whole: the end and a refusal are compared with the other file's place as a field is, and `fielddiff` prints the number.
#[derive(Clone, Copy)]
pub enum Place {
    Field(Found),
    Ended,
    Refused(u8),
}
