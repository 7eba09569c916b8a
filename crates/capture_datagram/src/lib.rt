#![tactic(auto)]
// What one captured packet holds for a UDP port. `find` and `is_link_taken` take whatever is captured; the functions on one header ask that its place
// lies in the packet.
ghost use Rattle.std.specs.Prelude.{◌≡◌};
ghost use Rattle.capture_datagram.specs.Answer.{pair};
ghost use Rattle.capture_datagram.specs.Link.{behind, cooked_v2_header, datagram_in, raw_in, typed_in};

pub mod answer;
pub mod ethernet;
pub mod field;
pub mod ipv4;
pub mod ipv6;
pub mod link;
pub mod udp;

use crate::answer::Found;
use crate::ethernet::{tagged_behind, typed_at};
use crate::field::number;
use crate::ipv4::{ipv4_at, version_at};
use crate::ipv6::ipv6_at;
use crate::link::{Link, link_of};

// Octets before the EtherType: two addresses; in a Linux cooked capture what tells the packet's way and its sender.
const ADDRESSES: usize = 12;

const COOKED_FRONT: usize = 14;

// Octets of the header of version 2, which begins with the EtherType.
const COOKED_V2_HEADER: usize = 20;

fn cooked_v2(packet: &[u8], port: u16) -> Found
    ensures { result ≡ behind cooked_v2_header (typed_in port (pair packet.now 0)) packet.now }
{
    if packet.len() < COOKED_V2_HEADER {
        return Found::Cut;
    }
    let kind = number(packet, 0, 0);
    typed_at(packet, COOKED_V2_HEADER, kind, port)
}

// An IP packet of either version.
fn raw(packet: &[u8], port: u16) -> Found
    ensures { result ≡ raw_in port packet.now }
{
    if packet.len() < 1 {
        return Found::Cut;
    }
    let version = version_at(packet, 0);
    if version == 4 {
        return ipv4_at(packet, 0, port);
    }
    if version == 6 {
        return ipv6_at(packet, 0, port);
    }
    Found::Passed
}

// What a captured packet of the link type holds for the UDP destination port.
pub fn find(packet: &[u8], link: u32, port: u16) -> Found
    ensures { result ≡ datagram_in packet.now link port }
{
    let kind = link_of(link);
    match kind {
        Link::Ethernet => tagged_behind(packet, ADDRESSES, port),
        Link::Cooked => tagged_behind(packet, COOKED_FRONT, port),
        Link::CookedV2 => cooked_v2(packet, port),
        Link::Raw => raw(packet, port),
        Link::Ipv4 => ipv4_at(packet, 0, port),
        Link::Ipv6 => ipv6_at(packet, 0, port),
        Link::Other => Found::Passed,
    }
}
