// The raster order of the records of a field.

// A plain place: a line and an offset that are numbers.
#[derive(Clone, Copy)]
pub struct Place {
    pub line: u16,
    pub offset: u16,
}

// What the records of a packet so far show: whether one is out of order, and the last plain place within the field.
#[derive(Clone, Copy)]
pub struct Scan {
    pub descends: bool,
    pub place: Option<Place>,
}
