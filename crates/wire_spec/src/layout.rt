// Where things stand in a packet (RFC 3550, section 5.1; RFC 8331, section 2.1; in its drafts of 2015, document 001, section 2.1).

// The layouts of the payload: RFC 8331's, and that of its drafts of 2015. The caller tells which (02, K3).
#[derive(Clone, Copy)]
pub enum Layout {
    Rfc8331,
    Draft2015,
}

// Octets of the RTP header without contributing sources and extension, and of the payload header.
pub const RTP_HEADER_SIZE: usize = 12;

pub const PAYLOAD_HEADER_SIZE: usize = 8;

// Octets of a contributing source, of the head of an extension and of each of its words.
pub const RTP_WORD: usize = 4;

// The payload header's octets: where Length, ANC_Count and F stand.
pub const LENGTH_AT: usize = 2;

pub const ANC_COUNT_AT: usize = 4;

pub const F_AT: usize = 5;

// Octets before the ANC data packets of a packet that is written.
pub const FRONT_SIZE: usize = RTP_HEADER_SIZE + PAYLOAD_HEADER_SIZE;

// Bits of a word.
pub const WORD_BITS: usize = 10;

// An ANC data packet: the bits at which its words start.
pub const DID_AT: usize = 32;

pub const SDID_AT: usize = DID_AT + WORD_BITS;

pub const DATA_COUNT_AT: usize = SDID_AT + WORD_BITS;

pub const WORDS_AT: usize = DATA_COUNT_AT + WORD_BITS;

// Its bits before the alignment, beside its user data words, and the octets of the smallest.
pub const FIXED_BITS: usize = WORDS_AT + WORD_BITS;

pub const LEAST_SIZE: usize = 12;

// It takes up to a multiple of so many bits.
pub const ALIGNMENT: usize = 32;

// The same in the drafts' layout, where it is another: the payload header ends with ANC_Count, DID stands behind Horizontal_Offset, and two R
// bits behind Data_Count.
pub const DRAFT_PAYLOAD_HEADER_SIZE: usize = 5;

pub const DRAFT_FRONT_SIZE: usize = RTP_HEADER_SIZE + DRAFT_PAYLOAD_HEADER_SIZE;

pub const DRAFT_DID_AT: usize = 24;

pub const DRAFT_R_AT: usize = DRAFT_DID_AT + 3 * WORD_BITS;

pub const DRAFT_WORDS_AT: usize = DRAFT_R_AT + 2;

pub const DRAFT_FIXED_BITS: usize = DRAFT_WORDS_AT + WORD_BITS;

pub const DRAFT_LEAST_SIZE: usize = 9;

pub const DRAFT_ALIGNMENT: usize = 8;

// How many numbers fit a field: C or S, Line_Number, Horizontal_Offset, StreamNum, what a header word carries, a word.
pub const FLAG_NUMBERS: u16 = 2;

pub const LINE_NUMBERS: u16 = 2048;

pub const OFFSET_NUMBERS: u16 = 4096;

pub const STREAM_NUMBERS: u16 = 128;

pub const HEADER_NUMBERS: u16 = 256;

pub const WORD_NUMBERS: u16 = 1024;

// The user data words that are not protected: from the one to the other (ST 291-1; 02, K5).
pub const LEAST_CLEAR: u16 = 0x004;

pub const MOST_CLEAR: u16 = 0x3FB;
