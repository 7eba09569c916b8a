// What a text of parameters says.

// How many pairs, and the VPID code, where one is given.
#[derive(Clone, Copy)]
pub struct Parameters {
    pub pairs: usize,
    pub vpid: Option<u8>,
}

impl Parameters {
    // Octets of a text that is read.
    pub const MAX_TEXT: usize = 4096;

    pub const MAX_PAIRS: usize = 64;

    pub const MAX_CODE: u16 = 255;
}
