// The stages of reading before the ANC data packets (01, "Order of reading").
ghost use Rattle.std.specs.Prelude.{◌≡◌, ◌+◌, ◌≤◌, length};
ghost use Rattle.wire_spec.specs.Layout.{payload_header_size};
ghost use Rattle.wire_spec.specs.Packet.{f_field, header_checks, header_least, header_size, length_field, padding_checks, padding_count, padding_flag, payload_checks, payload_size};
ghost use Rattle.wire_spec.specs.Result.{Ok, judge};
ghost use Rattle.wire_offsets.specs.Stage.{stage_of};
ghost use Rattle.rtp_strict_reader.specs.Answers.{SizeFound};

use wire_offsets::payload_header_size;
use wire_spec::count::OctetCount;
use wire_spec::layout::{ANC_COUNT_AT, F_AT, LENGTH_AT, Layout, RTP_HEADER_SIZE, RTP_WORD};
use wire_spec::limit::MAX_PACKET;
use wire_spec::refusal::{Refusal, refuse};
use wire_words::octet::{pair_at, wide};

// The octets of the RTP header with its sources and extension; more than there are where it is cut.
pub fn header_size(octets: &[u8]) -> OctetCount
    requires { header_least ≤ length octets.now }
    ensures { SizeFound octets.now result.0 }
{
    let first = wide(octets[0]);
    let fixed = RTP_HEADER_SIZE + RTP_WORD * (first % 16);
    if first / 16 % 2 == 0 {
        return OctetCount(fixed);
    }
    let least = fixed + RTP_WORD;
    if octets.len() < least {
        return OctetCount(least);
    }
    OctetCount(least + RTP_WORD * pair_at(octets, fixed + 2))
}

// 1, 2, 3, 2: the header's octets.
pub(crate) fn check_header(octets: &[u8]) -> Result<OctetCount, Refusal>
    ensures { result ≡ stage_of (judge 0 (header_checks octets.now) (Ok (header_size octets.now))) }
{
    if octets.len() > MAX_PACKET {
        return refuse(Refusal::TOO_LONG);
    }
    if octets.len() < RTP_HEADER_SIZE {
        return refuse(Refusal::HEADER_CUT);
    }
    if wide(octets[0]) / 64 != 2 {
        return refuse(Refusal::VERSION_NOT_2);
    }
    let size = header_size(octets);
    if octets.len() < size.0 {
        return refuse(Refusal::HEADER_CUT);
    }
    Ok(size)
}

// P.
fn padding_flag(octets: &[u8]) -> usize
    requires { header_least ≤ length octets.now }
    ensures { result ≡ padding_flag octets.now }
{
    wide(octets[0]) / 32 % 2
}

// "If P, the last octet counts the padding, itself included."
fn padding_count(octets: &[u8]) -> OctetCount
    requires { header_least ≤ length octets.now }
    ensures { result.0 ≡ padding_count octets.now }
{
    let last = octets.len() - 1;
    OctetCount(padding_flag(octets) * wide(octets[last]))
}

// 4, 5: the payload's octets.
pub(crate) fn check_padding(
    layout: Layout,
    octets: &[u8],
    header: OctetCount,
) -> Result<OctetCount, Refusal>
    requires { (header.0 ≡ header_size octets.now) × (header.0 ≤ length octets.now) × (header_least ≤ length octets.now) }
    ensures { result ≡ stage_of (judge 0 (padding_checks layout octets.now) (Ok (payload_size octets.now))) }
{
    let padding = padding_count(octets);
    let after = octets.len() - header.0;
    if padding.0 < padding_flag(octets) {
        return refuse(Refusal::PADDING_WRONG);
    }
    if after < padding.0 {
        return refuse(Refusal::PADDING_WRONG);
    }
    if after - padding.0 < payload_header_size(layout) {
        return refuse(Refusal::PAYLOAD_CUT);
    }
    Ok(OctetCount(after - padding.0))
}

// F of the payload header at the octet `at`; 0 in the drafts' layout, which has none.
pub(crate) fn f_at(layout: Layout, octets: &[u8], at: usize) -> u8
    requires { (at ≡ header_size octets.now) × (at + payload_header_size layout ≤ length octets.now) }
    ensures { result ≡ f_field layout octets.now }
{
    match layout {
        Layout::Rfc8331 => octets[at + F_AT] / 64,
        Layout::Draft2015 => 0,
    }
}

// 6, 7, 8: the octets of the ANC data packets.
pub(crate) fn check_payload(
    layout: Layout,
    octets: &[u8],
    header: OctetCount,
    payload: OctetCount,
) -> Result<OctetCount, Refusal>
    requires header_value { (header.0 ≡ header_size octets.now) × (payload.0 ≡ payload_size octets.now) }
    requires layout_bound { (payload_header_size layout ≤ payload.0) × (header.0 + payload.0 ≤ length octets.now) }
    ensures { result ≡ stage_of (judge 0 (payload_checks layout octets.now) (Ok (length_field octets.now))) }
{
    let at = header.0;
    let length = OctetCount(pair_at(octets, at + LENGTH_AT));
    let f_valid = f_at(layout, octets, at) != 1;
    let length_right = length.0 == payload.0 - payload_header_size(layout);
    let counted = (octets[at + ANC_COUNT_AT] != 0) | (length.0 == 0);
    if !f_valid {
        return refuse(Refusal::F_INVALID);
    }
    if !length_right {
        return refuse(Refusal::LENGTH_WRONG);
    }
    if !counted {
        return refuse(Refusal::LENGTH_WITHOUT_PACKETS);
    }
    Ok(length)
}
