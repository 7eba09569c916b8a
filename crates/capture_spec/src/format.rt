// The numbers of both formats.

// pcap, "File Header": the magic numbers of timestamps in microseconds and in nanoseconds.
pub const MAGIC_MICRO: usize = 0xA1B2C3D4;

pub const MAGIC_NANO: usize = 0xA1B23C4D;

// pcapng, "Section Header Block": its type, which reads the same in both orders, and its Byte-Order Magic.
pub const SECTION_TYPE: usize = 0x0A0D0D0A;

pub const ORDER_MAGIC: usize = 0x1A2B3C4D;

// pcapng: types of the blocks that are read; the others are passed over.
pub const INTERFACE_TYPE: usize = 1;

pub const PACKET_TYPE: usize = 2;

pub const SIMPLE_TYPE: usize = 3;

pub const ENHANCED_TYPE: usize = 6;

// Octets of a number of 32 bits, of which a block has a whole number.
pub const WORD_SIZE: usize = 4;

// Octets of pcap's head and of a record's, and of a block's type, length and magic.
pub const HEAD_SIZE: usize = 24;

pub const RECORD_HEAD: usize = 16;

pub const BLOCK_HEAD: usize = 12;

// pcap: where the link type stands, how many numbers it has, and where a record's captured length stands.
pub const LINK_AT: usize = 20;

pub const LINK_TYPES: usize = 65536;

pub const RECORD_LENGTH_AT: usize = 8;

// pcapng, where fields stand in their blocks: the length and the first field behind it; of an interface SnapLen; of a packet its captured length.
pub const LENGTH_AT: usize = 4;

pub const FIELDS_AT: usize = 8;

pub const SNAP_AT: usize = 12;

pub const CAPTURED_AT: usize = 20;

// The fewest octets of a block of each type: its fields, and its length before and behind.
pub const LEAST_SECTION: usize = 28;

pub const LEAST_INTERFACE: usize = 20;

pub const LEAST_SIMPLE: usize = 16;

pub const LEAST_ENHANCED: usize = 32;

// Where the octets of a packet stand in its block.
pub const SIMPLE_AT: usize = 12;

pub const ENHANCED_AT: usize = 28;

// Octets of the longest record or block that is read: a packet of 262,144 octets, and 4,096 for the rest.
pub const MAX_ITEM: usize = 266240;

// Interfaces of one section.
pub const MAX_INTERFACES: usize = 64;

// Numbers of refusal.
pub const NOT_A_CAPTURE: u8 = 80;

pub const CAPTURE_CUT: u8 = 81;

pub const LENGTHS_DISAGREE: u8 = 82;

pub const LINK_NOT_TAKEN: u8 = 83;

pub const ITEM_TOO_LONG: u8 = 84;

pub const TOO_MANY_INTERFACES: u8 = 85;
