// Eight words that start an octet. Four of them fill five octets, so the fifth stands in its octets as the first does.
//
// The word of a lane is its two octets with the bits before it masked out, multiplied so that it stands in front of sixteen bits, and divided. The
// compiler makes vector code of the eight lanes, where it can't see the masks and factors, nor the step from octet to octet (`wire_words::unseen`).
ghost use Rattle.std.specs.Prelude.{◌≡◌, ◌+◌, ◌*◌, ◌/◌, ◌%◌, ◌^◌, ◌<◌, length};
ghost use Rattle.std.specs.Int.Bits.{bit_and};
ghost use Rattle.wire_spec.specs.Bits.{bits_at, row_at};
ghost use Rattle.wire_spec.specs.Words.{word_bits};
ghost use Rattle.wire_words.specs.Word.{WordsFit};
ghost use Rattle.wire_row_reader.specs.Lanes.{lanes};

use wire_words::octet::pair;
use wire_words::unseen::zero;

// The masks, then the factors.
const LANES: [u16; 16] = [
    0xFFFF, 0x3FFF, 0xFFF, 0x3FF, 0xFFFF, 0x3FFF, 0xFFF, 0x3FF, 1, 4, 16, 64, 1, 4, 16, 64,
];

pub fn lanes() -> [u16; 16]
    ensures { result ≡ lanes }
{
    LANES
}

// The step to the next octet, and to the next eight words: the first factor.
pub fn step(octets: &[u8], m: &[u16; 16]) -> usize
    requires { m.now ≡ lanes }
    ensures { result ≡ 1 }
{
    let z = zero(octets.len());
    m[z + 8] as usize
}

fn ten(x: u16, mask: u16, factor: u16) -> u16
    requires { mask * factor < 2 ^ 16 }
    ensures { result ≡ bit_and x mask * factor / 64 }
{
    (x & mask) * factor / 64
}

// The word of lane `j`, in the octet `at` and the next; `z` is 0, and `one` is 1.
fn lane(octets: &[u8], at: usize, one: usize, m: &[u16; 16], z: usize, j: usize) -> u16
    requires { (at + 1 < length octets.now) × (one ≡ 1) × (m.now ≡ lanes) × (z ≡ 0) × (j < 8) }
    ensures { result ≡ bits_at octets.now (8 * at + 2 * (j % 4)) word_bits }
{
    ten(pair(octets[at], octets[at + one]), m[z + j], m[z + j + 8])
}

// The eight words from the octet `from` on.
pub fn eight_at(octets: &[u8], from: usize, m: &[u16; 16]) -> [u16; 8]
    requires { WordsFit octets.now (8 * from) 8 × (m.now ≡ lanes) }
    ensures { result ≡ row_at word_bits octets.now (8 * from) 8 }
{
    let z = zero(octets.len());
    let one = step(octets, m);
    [
        lane(octets, from, one, m, z, 0),
        lane(octets, from + 1, one, m, z, 1),
        lane(octets, from + 2, one, m, z, 2),
        lane(octets, from + 3, one, m, z, 3),
        lane(octets, from + 5, one, m, z, 4),
        lane(octets, from + 6, one, m, z, 5),
        lane(octets, from + 7, one, m, z, 6),
        lane(octets, from + 8, one, m, z, 7),
    ]
}
