// How long the caller's rows must be. A call refuses a shorter one before all else.

// Numbers that an answer needs.
pub const ANSWER_SIZE: usize = 9;

// Numbers of this boundary, beside the refusals: a row is too short; then, no layout has the number that is given as one.
pub const ROW_TOO_SHORT: u8 = 255;

pub const LAYOUT_UNKNOWN: u8 = 254;
