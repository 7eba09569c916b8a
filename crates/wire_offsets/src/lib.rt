#![tactic(auto)]
// Where things stand in a packet of each layout, and its size (RFC 8331, section 2.1; document 001, section 2.1; 02, K3).
ghost use Rattle.std.specs.Prelude.{◌≡◌, ◌+◌, ◌-◌, ◌/◌, ◌<◌, ◌^◌};
ghost use Rattle.wire_spec.specs.Anc.{anc_size, body_bits, did_at, words_at};
ghost use Rattle.wire_spec.specs.Layout.{alignment, least_size, payload_header_size};

use wire_spec::count::{OctetCount, WordCount};
use wire_spec::layout::{
    ALIGNMENT, DID_AT, DRAFT_ALIGNMENT, DRAFT_DID_AT, DRAFT_FIXED_BITS, DRAFT_LEAST_SIZE,
    DRAFT_PAYLOAD_HEADER_SIZE, DRAFT_WORDS_AT, FIXED_BITS, LEAST_SIZE, Layout, PAYLOAD_HEADER_SIZE,
    WORD_BITS, WORDS_AT,
};

// Kept as a match each, here and in what follows: a function that chooses between two numbers would need a definition and a lemma for each.

// Octets of the payload header.
pub fn payload_header_size(layout: Layout) -> usize
    ensures { result ≡ payload_header_size layout }
{
    match layout {
        Layout::Rfc8331 => PAYLOAD_HEADER_SIZE,
        Layout::Draft2015 => DRAFT_PAYLOAD_HEADER_SIZE,
    }
}

// The bit of an ANC data packet at which DID starts, ..
pub fn did_at(layout: Layout) -> usize
    ensures { result ≡ did_at layout }
{
    match layout {
        Layout::Rfc8331 => DID_AT,
        Layout::Draft2015 => DRAFT_DID_AT,
    }
}

// .. and the user data words.
pub fn words_at(layout: Layout) -> usize
    ensures { result ≡ words_at layout }
{
    match layout {
        Layout::Rfc8331 => WORDS_AT,
        Layout::Draft2015 => DRAFT_WORDS_AT,
    }
}

// Octets of the smallest ANC data packet.
pub fn least_size(layout: Layout) -> usize
    ensures { result ≡ least_size layout }
{
    match layout {
        Layout::Rfc8331 => LEAST_SIZE,
        Layout::Draft2015 => DRAFT_LEAST_SIZE,
    }
}

// It takes a multiple of so many octets.
fn unit(layout: Layout) -> usize
    ensures { result ≡ alignment layout / 8 }
{
    match layout {
        Layout::Rfc8331 => ALIGNMENT / 8,
        Layout::Draft2015 => DRAFT_ALIGNMENT / 8,
    }
}

// Its bits beside the user data words, and what rounds them up.
fn rounded(layout: Layout) -> usize
    ensures { result ≡ body_bits layout 0 + (alignment layout - 1) }
{
    match layout {
        Layout::Rfc8331 => FIXED_BITS + (ALIGNMENT - 1),
        Layout::Draft2015 => DRAFT_FIXED_BITS + (DRAFT_ALIGNMENT - 1),
    }
}

// Octets of an ANC data packet: "4 x ceiling((72 + 10n) / 32)"; "ceiling((66 + 10n) / 8)". One sum for both, so that the layouts differ in two
// numbers and no branch.
pub fn packet_size(layout: Layout, words: WordCount) -> OctetCount
    ensures { result.0 ≡ anc_size layout words.0 }
{
    let octets = (rounded(layout) + WORD_BITS * (words.0 as usize)) / 8;
    OctetCount(octets - octets % unit(layout))
}

// Octets, and more of them.
pub fn plus(a: OctetCount, b: OctetCount) -> OctetCount
    requires { a.0 + b.0 < 2 ^ 64 }
    ensures { result.0 ≡ a.0 + b.0 }
{
    OctetCount(a.0 + b.0)
}
