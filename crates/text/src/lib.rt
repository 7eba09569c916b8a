#![tactic(auto)]
// Text put into lent octets, piece by piece: each function puts one piece at `at`, asks for its room, and says where the next goes.
ghost use Rattle.std.specs.Prelude.{◌++◌, ◌+◌, ◌<◌, ◌≤◌, ◌≡◌, length};
ghost use Rattle.text.specs.Put.{Put};
ghost use Rattle.text.specs.Text as text;

use wire_words::octet::copy;

pub fn put(out: &mut [u8], at: usize, piece: &[u8]) -> usize
    requires { at + length piece.now ≤ length out.old }
    ensures put { Put out.old at piece.now out.new result }
    ensures value { result ≡ at + length piece.now }
{
    copy(piece, &mut out[at..]);
    at + piece.len()
}

// Every 64-bit number has at most 20 decimal digits.
pub fn put_decimal(out: &mut [u8], at: usize, n: u64) -> usize
    requires { at + text.decimal_most ≤ length out.old }
    ensures put { Put out.old at (text.decimal n) out.new result }
    ensures upper_bound { result ≤ at + text.decimal_most }
{
    let mut digits = [0u8; 20];
    let count = io::decimal(n, &mut digits);
    put(out, at, &digits[..count])
}

// A label and a number.
pub fn put_labelled(out: &mut [u8], at: usize, label: &[u8], n: u64) -> usize
    requires { at + length label.now + text.decimal_most ≤ length out.old }
    ensures put { Put out.old at (label.now ++ text.decimal n) out.new result }
    ensures upper_bound { result ≤ at + length label.now + text.decimal_most }
{
    let next = put(out, at, label);
    put_decimal(out, next, n)
}

// A number and a text behind it.
pub fn put_numbered(out: &mut [u8], at: usize, n: u64, rest: &[u8]) -> usize
    requires { at + text.decimal_most + length rest.now ≤ length out.old }
    ensures put { Put out.old at (text.decimal n ++ rest.now) out.new result }
    ensures upper_bound { result ≤ at + text.decimal_most + length rest.now }
{
    let next = put_decimal(out, at, n);
    put(out, next, rest)
}

fn digit(d: u16) -> u8
    requires { d < 16 }
    ensures { result ≡ text.digit d }
{
    if d < 10 {
        (0x30 + d) as u8
    } else {
        (0x57 + d) as u8
    }
}

// A label and two hex digits.
pub fn put_octet(out: &mut [u8], at: usize, label: &[u8], x: u8) -> usize
    requires { at + length label.now + 2 ≤ length out.old }
    ensures put { Put out.old at (label.now ++ text.hex 2 x) out.new result }
    ensures value { result ≡ at + length label.now + 2 }
{
    let wide = x as u16;
    let digits = [digit(wide / 16), digit(wide % 16)];
    let next = put(out, at, label);
    put(out, next, &digits)
}

// A space and three hex digits.
pub fn put_word(out: &mut [u8], at: usize, word: u16) -> usize
    requires { (word < 1024) × (at + 4 ≤ length out.old) }
    ensures put { Put out.old at (text.ascii " " ++ text.hex 3 word) out.new result }
    ensures value { result ≡ at + 4 }
{
    let piece = [
        b' ',
        digit(word / 256),
        digit(word / 16 % 16),
        digit(word % 16),
    ];
    put(out, at, &piece)
}
