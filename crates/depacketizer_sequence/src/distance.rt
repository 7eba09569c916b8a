// How far a packet's number is from the last fresh one, and what that says (01, "The distance .."; 02, K11).
ghost use Rattle.std.specs.Prelude.{◌≡◌};
ghost use Rattle.depacketizer_sequence.specs.Answers.{class_of};
ghost use Rattle.depacketizer_spec.specs.Step as step;

use wire_spec::number::PacketNumber;

// The largest distance that is ahead, and the smallest that is late.
const MAX_AHEAD: i32 = 2999;

const MIN_LATE: i32 = -99;

// What a distance says; `Ahead` with so many missing.
#[derive(Clone, Copy)]
pub enum Class {
    Late,
    Next,
    Far,
    Ahead(u64),
}

// Wrapped at 2^32 and read as a signed 32-bit number.
pub(crate) fn distance(last: PacketNumber, number: PacketNumber) -> i32
    ensures { result ≡ step.distance last.0 number.0 }
{
    let d = std::num::wrapping_sub_u32(number.0, last.0);
    if d < 0x8000_0000 {
        d as i32
    } else {
        (d as i64 - 0x1_0000_0000) as i32
    }
}

// 1 is next, 2 to 2,999 ahead, 0 to -99 late, anything else far.
pub(crate) fn classify(distance: i32) -> Class
    ensures { result ≡ class_of (step.classify distance) }
{
    if distance < MIN_LATE {
        return Class::Far;
    }
    if distance <= 0 {
        return Class::Late;
    }
    if distance == 1 {
        return Class::Next;
    }
    if distance > MAX_AHEAD {
        return Class::Far;
    }
    Class::Ahead((distance - 1) as u64)
}
