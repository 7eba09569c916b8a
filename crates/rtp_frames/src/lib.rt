#![tactic(auto)]
// Frames on a stream of octets (RFC 4571, section 2).

ghost use Rattle.std.specs.Prelude.{◌≡◌};
ghost use Rattle.rtp_frames.specs.Answers.{front_of};
ghost use Rattle.rtp_frames.specs.Frames.{front};

use wire_spec::limit::MAX_PACKET;
use wire_words::octet::pair_at;

// Octets of a frame's length.
pub const LENGTH_SIZE: usize = 2;

// Octets of the longest frame.
pub const MAX_FRAME: usize = LENGTH_SIZE + MAX_PACKET;

// What stands at the front: a frame with a packet of so many octets, one that is broken off, or nothing.
#[derive(Clone, Copy)]
pub enum Front {
    Packet(usize),
    Cut,
    End,
}

// The frame at the front of the octets.
pub fn frame_at(octets: &[u8]) -> Front
    ensures { result ≡ front_of (front octets.now) }
{
    if octets.len() == 0 {
        return Front::End;
    }
    if octets.len() < LENGTH_SIZE {
        return Front::Cut;
    }
    let size = pair_at(octets, 0);
    if octets.len() - LENGTH_SIZE < size {
        return Front::Cut;
    }
    Front::Packet(size)
}
