// EtherTypes and the tags before them (IEEE 802.3; IEEE 802.1Q, clause 9).
ghost use Rattle.std.specs.Prelude.{◌≡◌, ◌≤◌, drop, length};
ghost use Rattle.capture_datagram.specs.Answer.{beyond};
ghost use Rattle.capture_datagram.specs.Link.{behind, has_tag, is_tag, tagged, tag_octets, typed_in};

use crate::answer::Found;
use crate::field::{holds, number};
use crate::ipv4::ipv4_at;
use crate::ipv6::ipv6_at;

const IPV4: usize = 0x0800;

const IPV6: usize = 0x86DD;

// Tag Protocol Identifiers (IEEE 802.1Q, table 9-1), and the one that others used before.
const CUSTOMER_TAG: usize = 0x8100;

const SERVICE_TAG: usize = 0x88A8;

const OLDER_TAG: usize = 0x9100;

// Octets of a tag, and of an EtherType.
const TAG: usize = 4;

const TYPE: usize = 2;

fn is_tag(kind: usize) -> bool
    ensures { result ≡ is_tag kind }
{
    (kind == CUSTOMER_TAG) | ((kind == SERVICE_TAG) | (kind == OLDER_TAG))
}

// A whole tag stands at `at`.
fn has_tag(packet: &[u8], at: usize) -> bool
    requires { at ≤ length packet.now }
    ensures { result ≡ has_tag (drop at packet.now) }
{
    if !holds(packet, at, TAG) {
        return false;
    }
    is_tag(number(packet, at, 0))
}

// The octets of the whole tags at `at`.
fn tags_size(packet: &[u8], at: usize) -> usize
    requires { at ≤ length packet.now }
    ensures { result ≡ tag_octets (drop at packet.now) }
{
    let mut size: usize = 0;
    // Kept as a while: each turn asks whether one more whole tag follows.
    while has_tag(packet, at + size) {
        size += TAG;
    }
    size
}

// The packet at `at`, of the EtherType `kind`.
pub fn typed_at(packet: &[u8], at: usize, kind: usize, port: u16) -> Found
    requires { at ≤ length packet.now }
    ensures { result ≡ beyond at (typed_in port kind (drop at packet.now)) }
{
    if kind == IPV4 {
        return ipv4_at(packet, at, port);
    }
    if kind == IPV6 {
        return ipv6_at(packet, at, port);
    }
    Found::Passed
}

// The tags at `at`, the EtherType behind them, and its packet.
fn tagged_at(packet: &[u8], at: usize, port: u16) -> Found
    requires { at ≤ length packet.now }
    ensures { result ≡ beyond at (tagged port (drop at packet.now)) }
{
    let size = tags_size(packet, at);
    let end = size + TYPE;
    if !holds(packet, at, end) {
        return Found::Cut;
    }
    let kind = number(packet, at, size);
    if is_tag(kind) {
        return Found::Cut;
    }
    typed_at(packet, at + end, kind, port)
}

// What stands behind the `front` octets before the tags.
pub fn tagged_behind(packet: &[u8], front: usize, port: u16) -> Found
    ensures { result ≡ behind front (tagged port) packet.now }
{
    if packet.len() < front {
        return Found::Cut;
    }
    tagged_at(packet, front, port)
}
