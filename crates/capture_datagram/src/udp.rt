// UDP datagrams (RFC 768).
//
//      0      7 8     15 16    23 24    31
//     +--------+--------+--------+--------+
//     |   Source Port   |Destination Port |
//     +--------+--------+--------+--------+
//     |     Length      |    Checksum     |
//     +--------+--------+--------+--------+
ghost use Rattle.std.specs.Prelude.{◌≡◌, ◌+◌, ◌≤◌, drop, length};
ghost use Rattle.capture_datagram.specs.Answer.{beyond};
ghost use Rattle.capture_datagram.specs.Udp.{is_for_port, udp_header, udp_in};

use crate::answer::Found;
use crate::field::{holds, number};

pub const HEADER: usize = 8;

const DESTINATION_AT: usize = 2;

const LENGTH_AT: usize = 4;

// The datagram is to the port, and its length is right within `room` octets.
fn is_for_port(packet: &[u8], at: usize, room: usize, port: u16) -> bool
    requires { at + udp_header ≤ length packet.now }
    ensures { result ≡ is_for_port port room (drop at packet.now) }
{
    let destination = number(packet, at, DESTINATION_AT);
    let size = number(packet, at, LENGTH_AT);
    (destination == port as usize) & ((HEADER <= size) & (size <= room))
}

// The datagram at `at`, to which `room` octets belong by the headers before it.
pub fn udp_at(packet: &[u8], at: usize, room: usize, port: u16) -> Found
    requires { at ≤ length packet.now }
    ensures { result ≡ beyond at (udp_in port room (drop at packet.now)) }
{
    if room < HEADER {
        return Found::Passed;
    }
    if !holds(packet, at, HEADER) {
        return Found::Cut;
    }
    if !is_for_port(packet, at, room, port) {
        return Found::Passed;
    }
    let size = number(packet, at, LENGTH_AT);
    if !holds(packet, at, size) {
        return Found::Cut;
    }
    Found::Frame {
        start: at + HEADER,
        end: at + size,
    }
}
