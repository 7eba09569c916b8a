#![tactic(auto)]
// SDP format parameters read (RFC 8331, sections 3.1 and 4; 01, "SDP parameters"): the items checked from left to right, then the pairs written.
//
// `read` is the entry point: it takes any octets. The writer is crate `sdp_writer`.
ghost use Rattle.std.specs.Prelude.{◌≡◌, ◌+◌, ◌≤◌, drop, length};
ghost use Rattle.wire_spec.specs.Bits.{overwrite, splice};
ghost use Rattle.sdp_spec.specs.Grammar.{pairs_of};
ghost use Rattle.sdp_spec.specs.Reading.{add, add_code, add_pair, front, gather, items, none, skip_spaces};
ghost use Rattle.sdp_reader.specs.Answers.{Stepped, item_pairs, read_leaves, read_returns};

use sdp_item::read_item;
use sdp_spec::item::Item;
use sdp_spec::parameters::Parameters;
use wire_spec::refusal::{Refusal, refuse, refuse_at};

// The item at the front of a text, how many octets lie before the next one, and whether there is a next one.
#[derive(Clone, Copy)]
pub struct Step {
    pub item: Item,
    pub used: usize,
    pub more: bool,
}

// How many octets stand before the first `;`.
fn front_length(text: &[u8]) -> usize
    ensures { result ≡ length (front text.now) }
{
    text.iter().take_while(|octet| **octet != b';').count()
}

// How many spaces stand at the front.
fn spaces(text: &[u8]) -> usize
    ensures { (result ≤ length text.now) × (drop result text.now ≡ skip_spaces text.now) }
{
    text.iter().take_while(|octet| **octet == b' ').count()
}

fn next_item(text: &[u8]) -> Step
    ensures { Stepped text.now result }
{
    let n = front_length(text);
    let item = read_item(&text[..n]);
    if n == text.len() {
        return Step {
            item,
            used: n,
            more: false,
        };
    }
    let start = n + 1;
    let used = start + spaces(&text[start..]);
    Step {
        item,
        used,
        more: true,
    }
}

fn add_pair(index: usize, found: Parameters) -> Result<Parameters, Refusal>
    ensures { result ≡ add_pair index found }
{
    let vpid = found.vpid;
    if Parameters::MAX_PAIRS <= found.pairs {
        return refuse_at(Refusal::TOO_MANY_PAIRS, index);
    }
    Ok(Parameters {
        pairs: found.pairs + 1,
        vpid,
    })
}

fn add_code(index: usize, found: Parameters, code: u8) -> Result<Parameters, Refusal>
    ensures { result ≡ add_code index found.pairs found.vpid code }
{
    let vpid = found.vpid;
    match vpid {
        Some(_) => refuse_at(Refusal::SECOND_VPID_CODE, index),
        None => Ok(Parameters {
            pairs: found.pairs,
            vpid: Some(code),
        }),
    }
}

// One item more: a malformed one offends before all else.
fn add_item(index: usize, found: Parameters, item: Item) -> Result<Parameters, Refusal>
    ensures { result ≡ add index found item }
{
    match item {
        Item::Malformed => refuse_at(Refusal::ITEM_MALFORMED, index),
        Item::Other => Ok(found),
        Item::VpidCode(code) => add_code(index, found, code),
        Item::DidSdid { did: _, sdid: _ } => add_pair(index, found),
    }
}

// The items from left to right, up to the first that offends.
fn check_items(text: &[u8]) -> Result<Parameters, Refusal>
    ensures { result ≡ gather 0 none (items text.now) }
{
    let mut found = Parameters {
        pairs: 0,
        vpid: None,
    };
    let mut rest = text;
    let mut more = 0 < text.len();
    let mut index: usize = 0;
    // Kept as a while: how many octets a turn takes is read from them, and an empty item may be the last.
    while more {
        let step = next_item(rest);
        let item = step.item;
        found = add_item(index, found, item)?;
        let used = step.used;
        rest = &rest[used..];
        more = step.more;
        index += 1;
    }
    Ok(found)
}

// Writes the octets of an item that is a pair from `to` on, and none of any other item; how many are then written.
fn store_item(item: Item, to: usize, pairs: &mut [u8]) -> usize
    requires { to + length (item_pairs item) ≤ length pairs.old }
    ensures { (result ≡ to + length (item_pairs item)) × (pairs.new ≡ splice pairs.old to (item_pairs item)) }
{
    match item {
        Item::DidSdid { did, sdid } => {
            pairs[to] = did;
            pairs[to + 1] = sdid;
            to + 2
        }
        Item::VpidCode(_) => to,
        Item::Other => to,
        Item::Malformed => to,
    }
}

// Writes the pairs of a text.
fn store_pairs(text: &[u8], pairs: &mut [u8])
    requires { length (pairs_of (items text.now)) ≤ length pairs.old }
    ensures { pairs.new ≡ overwrite (pairs_of (items text.now)) pairs.old }
{
    let mut rest = text;
    let mut more = 0 < text.len();
    let mut to: usize = 0;
    // Kept as a while: how many octets a turn takes is read from them, and an empty item may be the last.
    while more {
        let step = next_item(rest);
        let item = step.item;
        to = store_item(item, to, pairs);
        let used = step.used;
        rest = &rest[used..];
        more = step.more;
    }
}

// Reads the pairs of a text into the first octets of `pairs`, DID then SDID.
pub fn read(text: &[u8], pairs: &mut [u8]) -> Result<Parameters, Refusal>
    ensures value { result ≡ read_returns text.now pairs.old }
    ensures pairs_after { pairs.new ≡ read_leaves text.now pairs.old }
{
    if Parameters::MAX_TEXT < text.len() {
        return refuse(Refusal::TEXT_TOO_LONG);
    }
    let parameters = check_items(text)?;
    if pairs.len() / 2 < parameters.pairs {
        return refuse(Refusal::TEXT_ROOM_TOO_SMALL);
    }
    store_pairs(text, pairs);
    Ok(parameters)
}
