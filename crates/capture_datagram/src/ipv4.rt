// IPv4 packets (RFC 791, section 3.1).
//
//      0                   1                   2                   3
//      0 1 2 3 4 5 6 7 8 9 0 1 2 3 4 5 6 7 8 9 0 1 2 3 4 5 6 7 8 9 0 1
//     +-+-+-+-+-+-+-+-+-+-+-+-+-+-+-+-+-+-+-+-+-+-+-+-+-+-+-+-+-+-+-+-+
//     |Version|  IHL  |Type of Service|          Total Length         |
//     +-+-+-+-+-+-+-+-+-+-+-+-+-+-+-+-+-+-+-+-+-+-+-+-+-+-+-+-+-+-+-+-+
//     |         Identification        |Flags|      Fragment Offset    |
//     +-+-+-+-+-+-+-+-+-+-+-+-+-+-+-+-+-+-+-+-+-+-+-+-+-+-+-+-+-+-+-+-+
//     |  Time to Live |    Protocol   |         Header Checksum       |
//     +-+-+-+-+-+-+-+-+-+-+-+-+-+-+-+-+-+-+-+-+-+-+-+-+-+-+-+-+-+-+-+-+
ghost use Rattle.std.specs.Prelude.{◌≡◌, ◌+◌, ◌≤◌, drop, length};
ghost use Rattle.capture_datagram.specs.Answer.{beyond};
ghost use Rattle.capture_datagram.specs.Ip.{ipv4_header, ipv4_in, ipv4_size, is_ipv4_udp, is_ipv4_whole, total_length, version};

use crate::answer::Found;
use crate::field::{holds, number, octet};
use crate::udp::udp_at;

const HEADER: usize = 20;

const TOTAL_LENGTH_AT: usize = 2;

const FRAGMENT_AT: usize = 6;

const PROTOCOL_AT: usize = 9;

// The number of UDP among protocols and next headers.
pub const UDP: usize = 17;

// The version of the header at `at`, in its first four bits.
pub fn version_at(packet: &[u8], at: usize) -> usize
    requires { at + 1 ≤ length packet.now }
    ensures { result ≡ version (drop at packet.now) }
{
    octet(packet, at, 0) / 16
}

// The octets of the header: IHL counts words of four.
fn header_size(packet: &[u8], at: usize) -> usize
    requires { at + ipv4_header ≤ length packet.now }
    ensures { result ≡ ipv4_size (drop at packet.now) }
{
    4 * (octet(packet, at, 0) % 16)
}

// The header is right, and of UDP.
fn is_udp(packet: &[u8], at: usize) -> bool
    requires { at + ipv4_header ≤ length packet.now }
    ensures { result ≡ is_ipv4_udp (drop at packet.now) }
{
    let version = version_at(packet, at);
    let size = header_size(packet, at);
    let total = number(packet, at, TOTAL_LENGTH_AT);
    let protocol = octet(packet, at, PROTOCOL_AT);
    (version == 4) & ((HEADER <= size) & ((size <= total) & (protocol == UDP)))
}

// More Fragments and the Fragment Offset are zero.
fn is_whole(packet: &[u8], at: usize) -> bool
    requires { at + ipv4_header ≤ length packet.now }
    ensures { result ≡ is_ipv4_whole (drop at packet.now) }
{
    number(packet, at, FRAGMENT_AT) % 0x4000 == 0
}

// The packet at `at`.
pub fn ipv4_at(packet: &[u8], at: usize, port: u16) -> Found
    requires { at ≤ length packet.now }
    ensures { result ≡ beyond at (ipv4_in port (drop at packet.now)) }
{
    if !holds(packet, at, HEADER) {
        return Found::Cut;
    }
    if !is_udp(packet, at) {
        return Found::Passed;
    }
    if !is_whole(packet, at) {
        return Found::Fragment;
    }
    let size = header_size(packet, at);
    if !holds(packet, at, size) {
        return Found::Cut;
    }
    let total = number(packet, at, TOTAL_LENGTH_AT);
    udp_at(packet, at + size, total - size, port)
}
