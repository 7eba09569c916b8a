// IPv6 packets (RFC 8200, section 3) and extension headers (section 4).
//
//     +-+-+-+-+-+-+-+-+-+-+-+-+-+-+-+-+-+-+-+-+-+-+-+-+-+-+-+-+-+-+-+-+
//     |Version| Traffic Class |           Flow Label                  |
//     +-+-+-+-+-+-+-+-+-+-+-+-+-+-+-+-+-+-+-+-+-+-+-+-+-+-+-+-+-+-+-+-+
//     |         Payload Length        |  Next Header  |   Hop Limit   |
//     +-+-+-+-+-+-+-+-+-+-+-+-+-+-+-+-+-+-+-+-+-+-+-+-+-+-+-+-+-+-+-+-+
//     |                 Source Address, Destination Address           |
//     +-+-+-+-+-+-+-+-+-+-+-+-+-+-+-+-+-+-+-+-+-+-+-+-+-+-+-+-+-+-+-+-+
ghost use Rattle.std.specs.Prelude.{◌≡◌, ◌+◌, ◌≤◌, drop, length};
ghost use Rattle.capture_datagram.specs.Answer.{beyond};
ghost use Rattle.capture_datagram.specs.Ip.{
  extension_in,
  extension_size,
  extension_unit,
  headers,
  ipv6_header,
  ipv6_in,
  is_extension,
  is_ipv6_udp,
  is_ipv6_whole,
  leads_to_udp,
};

use crate::answer::Found;
use crate::field::{holds, number, octet};
use crate::ipv4::{UDP, version_at};
use crate::udp::udp_at;

const HEADER: usize = 40;

const PAYLOAD_LENGTH_AT: usize = 4;

const NEXT_HEADER_AT: usize = 6;

// Extension headers come in eights of octets.
const UNIT: usize = 8;

// Next headers (sections 4.3 to 4.6).
const HOP_BY_HOP: usize = 0;

const ROUTING: usize = 43;

const FRAGMENT: usize = 44;

const DESTINATION: usize = 60;

const FRAGMENT_OFFSET_AT: usize = 2;

fn is_extension(next: usize) -> bool
    ensures { result ≡ is_extension next }
{
    (next == HOP_BY_HOP) | ((next == ROUTING) | ((next == DESTINATION) | (next == FRAGMENT)))
}

// UDP's, or a header that it may stand behind.
fn leads_to_udp(next: usize) -> bool
    ensures { result ≡ leads_to_udp next }
{
    (next == UDP) | is_extension(next)
}

// The octets of the extension header `next`.
fn extension_size(packet: &[u8], at: usize, next: usize) -> usize
    requires { at + extension_unit ≤ length packet.now }
    ensures { result ≡ extension_size next (drop at packet.now) }
{
    if next == FRAGMENT {
        return UNIT;
    }
    UNIT * (1 + octet(packet, at, 1))
}

// The extension header `next` is not that of a fragment, or of one that is the whole datagram.
fn is_whole(packet: &[u8], at: usize, next: usize) -> bool
    requires { at + extension_unit ≤ length packet.now }
    ensures { result ≡ is_ipv6_whole next (drop at packet.now) }
{
    if next == FRAGMENT {
        let offset = number(packet, at, FRAGMENT_OFFSET_AT);
        return (offset / 8 == 0) & (offset % 2 == 0);
    }
    true
}

// The octets of the extension header `next` at `at` (RFC 8200, section 4), to which and to what follows `room`
// octets belong; or what the packet is where it goes no further.
fn extension_at(packet: &[u8], at: usize, next: usize, room: usize) -> Result<usize, Found>
    requires { at ≤ length packet.now }
    ensures { result ≡ extension_in next room (drop at packet.now) }
{
    if room < UNIT {
        return Err(Found::Passed);
    }
    if !holds(packet, at, UNIT) {
        return Err(Found::Cut);
    }
    let size = extension_size(packet, at, next);
    let behind = octet(packet, at, 0);
    if !(leads_to_udp(behind) & (size <= room)) {
        return Err(Found::Passed);
    }
    if !is_whole(packet, at, next) {
        return Err(Found::Fragment);
    }
    if !holds(packet, at, size) {
        return Err(Found::Cut);
    }
    Ok(size)
}

// The headers from `start` on, `first` the first of them.
fn headers_at(packet: &[u8], start: usize, first: usize, payload: usize, port: u16) -> Found
    requires { start ≤ length packet.now }
    ensures { result ≡ beyond start (headers port first payload (drop start packet.now)) }
{
    let mut at = start;
    let mut next = first;
    let mut room = payload;
    // Kept as a while: each header says how long it is, and which is next.
    while is_extension(next) {
        let header = extension_at(packet, at, next, room);
        match header {
            Err(found) => {
                return found;
            }
            Ok(size) => {
                next = octet(packet, at, 0);
                at += size;
                room -= size;
            }
        }
    }
    udp_at(packet, at, room, port)
}

// The version is 6, and the first header leads to UDP.
fn is_udp(packet: &[u8], at: usize) -> bool
    requires { at + ipv6_header ≤ length packet.now }
    ensures { result ≡ is_ipv6_udp (drop at packet.now) }
{
    let version = version_at(packet, at);
    let next = octet(packet, at, NEXT_HEADER_AT);
    (version == 6) & leads_to_udp(next)
}

// The packet at `at`.
pub fn ipv6_at(packet: &[u8], at: usize, port: u16) -> Found
    requires { at ≤ length packet.now }
    ensures { result ≡ beyond at (ipv6_in port (drop at packet.now)) }
{
    if !holds(packet, at, HEADER) {
        return Found::Cut;
    }
    if !is_udp(packet, at) {
        return Found::Passed;
    }
    let next = octet(packet, at, NEXT_HEADER_AT);
    let room = number(packet, at, PAYLOAD_LENGTH_AT);
    headers_at(packet, at + HEADER, next, room, port)
}
