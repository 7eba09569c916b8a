// Numbers of whole octets, most significant first.
ghost use Rattle.std.specs.Prelude.{◌≡◌, ◌+◌, ◌*◌, ◌≤◌, length};
ghost use Rattle.wire_spec.specs.Bits.{bit, bits_at, overwrite, quad_of};
ghost use Rattle.wire_words.specs.Octet.{reversed_of};

// 1 for true and 0 for false.
pub fn flag(b: bool) -> u8
    ensures { result ≡ bit b }
{
    if b { 1 } else { 0 }
}

pub fn wide(x: u8) -> usize
    ensures { result ≡ x }
{
    x as usize
}

// Two octets as one number.
pub fn pair(a: u8, b: u8) -> u16
    ensures { result ≡ a * 256 + b }
{
    (a as u16) * 256 + (b as u16)
}

// The two octets at `at`.
pub fn pair_at(octets: &[u8], at: usize) -> usize
    requires { at + 2 ≤ length octets.now }
    ensures { result ≡ bits_at octets.now (8 * at) 16 }
{
    pair(octets[at], octets[at + 1]) as usize
}

fn quad(a: u8, b: u8, c: u8, d: u8) -> u32
    ensures { result ≡ quad_of a b c d }
{
    (((a as u32) * 256 + (b as u32)) * 256 + (c as u32)) * 256 + (d as u32)
}

// The four octets at `at`, the last one most significant.
fn back_at(octets: &[u8], at: usize) -> u32
    requires { at + 4 ≤ length octets.now }
    ensures { reversed_of result ≡ bits_at octets.now (8 * at) 32 }
{
    quad(octets[at + 3], octets[at + 2], octets[at + 1], octets[at])
}

// The four octets of a number, in reverse order.
fn reversed(x: u32) -> u32
    ensures { result ≡ reversed_of x }
{
    x % 256 * 16777216 + x / 256 % 256 * 65536 + x / 65536 % 256 * 256 + x / 16777216
}

// The four octets at `at`. Two steps, which the compiler makes one load and one swap of octets of.
pub fn quad_at(octets: &[u8], at: usize) -> u32
    requires { at + 4 ≤ length octets.now }
    ensures { result ≡ bits_at octets.now (8 * at) 32 }
{
    reversed(back_at(octets, at))
}

// Writes all of `from` to the first octets of `to`. By octet: `copy_from_slice` would want `memmove` of whoever links the C library.
pub fn copy(from: &[u8], to: &mut [u8])
    requires { length from.now ≤ length to.old }
    ensures { to.new ≡ overwrite from.now to.old }
{
    for (k, octet) in from.iter().enumerate() {
        to[k] = *octet;
    }
}
