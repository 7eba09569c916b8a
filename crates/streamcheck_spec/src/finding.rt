// What a packet of the stream breaks.
use wire_spec::refusal::Refusal;

// Kept whole: a refusal is one of the things that a line of the report can tell, and `entries` lists them together.
#[derive(Clone, Copy)]
pub enum Finding {
    Refused(Refusal),
    // A broken last frame.
    Cut,
    // The packet number is not the next.
    Number,
    // Timestamp or F changed before a mark.
    Change,
    // Reserved bits set.
    Reserved,
    // Records out of raster order.
    Raster,
}
