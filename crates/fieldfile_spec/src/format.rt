// The numbers of the format (01, "Field file"; 02, K2).

// `ANF`, as the number of its three octets.
pub const NAME: usize = 0x41_4E46;

pub const NAME_SIZE: usize = 3;

// Versions 1 and 2 are read, and 2 is written (02, K2): a field's count has one octet in version 1, and two in version 2.
#[derive(Clone, Copy)]
pub enum Version {
    One,
    Two,
}

pub const VERSION_1: usize = 1;

pub const VERSION_2: usize = 2;

// Octets of `ANF` and the version.
pub const HEAD_SIZE: usize = 5;

// Where F and the count stand in a field's header, behind the timestamp.
pub const F_AT: usize = 4;

pub const COUNT_AT: usize = 5;

// Octets of a field's header: timestamp, F and count.
pub const HEADER_SIZE_1: usize = COUNT_AT + 1;

pub const HEADER_SIZE_2: usize = COUNT_AT + 2;
