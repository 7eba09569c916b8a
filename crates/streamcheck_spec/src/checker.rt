// What is carried from packet to packet, and what a packet shows.
use crate::place::Place;
use rtp_strict_reader::packet::Head;
use wire_spec::refusal::Refusal;

// The last packet that was not refused, if there is one: its source and payload type are those of the first accepted. And the last plain place
// within the field.
#[derive(Clone, Copy)]
pub struct Checker {
    pub last: Option<Head>,
    pub place: Option<Place>,
}

// What a packet that is not refused breaks.
#[derive(Clone, Copy)]
pub struct Findings {
    pub number: bool,
    pub change: bool,
    pub reserved: bool,
    pub raster: bool,
}

// The next state, and what the packet showed.
#[derive(Clone, Copy)]
pub struct Step {
    pub checker: Checker,
    pub outcome: Result<Findings, Refusal>,
}
