#![tactic(auto)]
// One item of the SDP format parameters (RFC 8331, sections 3.1 and 4; 01, "SDP parameters"), read from the front of a text.
//
// `read_item` is the entry point: it takes any octets.
ghost use Rattle.std.specs.Prelude.{◌≡◌, get_or};
ghost use Rattle.sdp_item.specs.Answers.{digits_of};
ghost use Rattle.sdp_spec.specs.Reading.{are_value, did_sdid_of, digits, hex_behind, item_of, name_length, other_of, starts_with, vpid_code_of};
ghost use Rattle.sdp_spec.specs.Text.{decimal_base, decimal_most, digit_value, hex_base, hex_most, is_name, is_value, within};

use sdp_spec::item::Item;
use sdp_spec::parameters::Parameters;

// Digits at the front of a text: the number that they write, and how many they are.
#[derive(Clone, Copy)]
pub struct Digits {
    pub value: u16,
    pub count: usize,
}

// Letters, digits, `_` or `-`.
#[tactic(auto, unfolding(sdp_spec::specs::Text::is_name))]
fn is_name(octet: u8) -> bool
    ensures { result ≡ is_name octet }
{
    octet.is_ascii_alphanumeric() | ((octet == b'_') | (octet == b'-'))
}

// Octets other than `;` and space.
fn is_value(octet: u8) -> bool
    ensures { result ≡ is_value octet }
{
    !((octet == b';') | (octet == b' '))
}

// A digit of either case; 16 for any other octet.
#[tactic(auto, unfolding(sdp_spec::specs::Text::digit_value))]
fn digit_value(octet: u8) -> u16
    ensures { result ≡ digit_value octet }
{
    match octet {
        b'0'..=b'9' => u16::from(octet - b'0'),
        b'A'..=b'F' => u16::from(octet - 0x37),
        b'a'..=b'f' => u16::from(octet - 0x57),
        _ => 16,
    }
}

// The octet at an index, and 0 past the end.
fn octet_at(text: &[u8], i: usize) -> u8
    ensures { result ≡ get_or text.now i 0 }
{
    text.get(i).copied().unwrap_or(0)
}

// One or two hex digits.
fn hex(text: &[u8]) -> Digits
    ensures { result ≡ digits_of hex_base (digits hex_base hex_most text.now) }
{
    let first = digit_value(octet_at(text, 0));
    if 16 <= first {
        return Digits { value: 0, count: 0 };
    }
    let second = digit_value(octet_at(text, 1));
    if 16 <= second {
        return Digits {
            value: first,
            count: 1,
        };
    }
    Digits {
        value: first * 16 + second,
        count: 2,
    }
}

// One to three decimal digits.
fn decimal(text: &[u8]) -> Digits
    ensures { result ≡ digits_of decimal_base (digits decimal_base decimal_most text.now) }
{
    let first = digit_value(octet_at(text, 0));
    if 10 <= first {
        return Digits { value: 0, count: 0 };
    }
    let second = digit_value(octet_at(text, 1));
    if 10 <= second {
        return Digits {
            value: first,
            count: 1,
        };
    }
    let third = digit_value(octet_at(text, 2));
    if 10 <= third {
        return Digits {
            value: first * 10 + second,
            count: 2,
        };
    }
    Digits {
        value: first * 100 + second * 10 + third,
        count: 3,
    }
}

// The hex digits behind a word; none where the text does not start with it.
fn hex_behind(text: &[u8], word: &[u8]) -> Digits
    ensures { result ≡ digits_of hex_base (hex_behind word.now text.now) }
{
    if !text.starts_with(word) {
        return Digits { value: 0, count: 0 };
    }
    let n = word.len();
    hex(&text[n..])
}

// `{0xH,0xH}`.
fn did_sdid(value: &[u8]) -> Item
    ensures { result ≡ did_sdid_of value.now }
{
    let did = hex_behind(value, b"{0x");
    if did.count == 0 {
        return Item::Malformed;
    }
    let behind_did = 3 + did.count;
    let rest = &value[behind_did..];
    let sdid = hex_behind(rest, b",0x");
    if sdid.count == 0 {
        return Item::Malformed;
    }
    let behind_sdid = 3 + sdid.count;
    let last = &rest[behind_sdid..];
    if !last.starts_with(b"}") {
        return Item::Malformed;
    }
    if last.len() != 1 {
        return Item::Malformed;
    }
    Item::DidSdid {
        did: did.value as u8,
        sdid: sdid.value as u8,
    }
}

// One to three digits, at most 255.
fn vpid_code(value: &[u8]) -> Item
    ensures { result ≡ vpid_code_of value.now }
{
    let code = decimal(value);
    if code.count == 0 {
        return Item::Malformed;
    }
    if code.count != value.len() {
        return Item::Malformed;
    }
    if Parameters::MAX_CODE < code.value {
        return Item::Malformed;
    }
    Item::VpidCode(code.value as u8)
}

// How many octets of a name stand at the front.
fn name_length(text: &[u8]) -> usize
    ensures { result ≡ name_length text.now }
{
    text.iter().take_while(|octet| is_name(**octet)).count()
}

fn are_value(text: &[u8]) -> bool
    ensures { result ≡ are_value text.now }
{
    text.iter().all(|octet| is_value(*octet))
}

// Another name, `=`, and a value of one or more octets.
fn other(text: &[u8]) -> Item
    ensures { result ≡ other_of text.now }
{
    let n = name_length(text);
    if n == 0 {
        return Item::Malformed;
    }
    if octet_at(text, n) != b'=' {
        return Item::Malformed;
    }
    let start = n + 1;
    if text.len() <= start {
        return Item::Malformed;
    }
    if !are_value(&text[start..]) {
        return Item::Malformed;
    }
    Item::Other
}

// Names are exact, and a known name decides what its value must be.
pub fn read_item(text: &[u8]) -> Item
    ensures { result ≡ item_of text.now }
{
    if text.starts_with(b"DID_SDID=") {
        return did_sdid(&text[9..]);
    }
    if text.starts_with(b"VPID_Code=") {
        return vpid_code(&text[10..]);
    }
    other(text)
}
