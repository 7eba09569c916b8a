// How many octets a record or a block has, and what a block of a section holds.
ghost use Rattle.std.specs.Prelude.{◌≡◌, ◌+◌, ◌<◌, ◌≤◌, length};
ghost use Rattle.capture_spec.specs.Numbers.{block_head, least_enhanced, least_interface, least_simple};
ghost use Rattle.capture_spec.specs.Step.{block_extent, body_item, enhanced_item, interface_item, is_described, is_length, least_of, packet_from, record_extent, simple_item, simple_size};

use crate::number::{half_at, word_at};
use capture_spec::format::{
    BLOCK_HEAD, CAPTURED_AT, ENHANCED_AT, ENHANCED_TYPE, FIELDS_AT, INTERFACE_TYPE, ITEM_TOO_LONG,
    LEAST_ENHANCED, LEAST_INTERFACE, LEAST_SIMPLE, LENGTH_AT, LENGTHS_DISAGREE, LINK_NOT_TAKEN,
    MAX_INTERFACES, MAX_ITEM, PACKET_TYPE, RECORD_HEAD, RECORD_LENGTH_AT, SIMPLE_AT, SIMPLE_TYPE,
    SNAP_AT, TOO_MANY_INTERFACES, WORD_SIZE,
};
use capture_spec::state::{Item, Order, Place, State, Unread};

// The record at the front.
pub fn record_extent(order: Order, octets: &[u8]) -> Result<usize, Unread>
    ensures { result ≡ record_extent order octets.now }
{
    if octets.len() < RECORD_HEAD {
        return Err(Unread::Short);
    }
    let n = RECORD_HEAD + word_at(order, octets, RECORD_LENGTH_AT);
    if MAX_ITEM < n {
        return Err(Unread::Refused(ITEM_TOO_LONG));
    }
    if octets.len() < n {
        return Err(Unread::Short);
    }
    Ok(n)
}

fn is_length(least: usize, n: usize) -> bool
    ensures { result ≡ is_length least n }
{
    (least <= n) & (n % WORD_SIZE == 0)
}

// The block at the front, of at least so many octets.
pub fn block_extent(order: Order, least: usize, octets: &[u8]) -> Result<usize, Unread>
    requires { (block_head ≤ least) × (block_head ≤ length octets.now) }
    ensures { result ≡ block_extent order least octets.now }
{
    let n = word_at(order, octets, LENGTH_AT);
    if !is_length(least, n) {
        return Err(Unread::Refused(LENGTHS_DISAGREE));
    }
    if MAX_ITEM < n {
        return Err(Unread::Refused(ITEM_TOO_LONG));
    }
    if octets.len() < n {
        return Err(Unread::Short);
    }
    if word_at(order, octets, n - WORD_SIZE) != n {
        return Err(Unread::Refused(LENGTHS_DISAGREE));
    }
    Ok(n)
}

fn is_described(state: State, id: usize) -> bool
    ensures { result ≡ is_described state id }
{
    (id < state.described) & (id < MAX_INTERFACES)
}

// A packet from an interface, in a block of `n` octets that has room for so many of it.
fn packet_from(
    state: State,
    id: usize,
    at: usize,
    size: usize,
    room: usize,
    n: usize,
) -> Result<Item, Unread>
    ensures { result ≡ packet_from state id at size room n }
{
    if room < size {
        return Err(Unread::Refused(LENGTHS_DISAGREE));
    }
    if id >= state.described {
        return Err(Unread::Refused(LINK_NOT_TAKEN));
    }
    if id >= MAX_INTERFACES {
        return Err(Unread::Refused(LINK_NOT_TAKEN));
    }
    let link = state.links[id];
    Ok(Item::Packet {
        place: Place { at, size, link },
        used: n,
    })
}

fn simple_size(snap: usize, original: usize) -> usize
    ensures { result ≡ simple_size snap original }
{
    if snap == 0 {
        return original;
    }
    if original < snap {
        return original;
    }
    snap
}

fn simple_item(order: Order, state: State, n: usize, octets: &[u8]) -> Result<Item, Unread>
    requires { (least_simple ≤ n) × (n ≤ length octets.now) }
    ensures { result ≡ simple_item order state n octets.now }
{
    let size = simple_size(state.snap, word_at(order, octets, FIELDS_AT));
    packet_from(state, 0, SIMPLE_AT, size, n - LEAST_SIMPLE, n)
}

fn enhanced_item(
    order: Order,
    state: State,
    id: usize,
    n: usize,
    octets: &[u8],
) -> Result<Item, Unread>
    requires { (least_enhanced ≤ n) × (n ≤ length octets.now) }
    ensures { result ≡ enhanced_item order state id n octets.now }
{
    let size = word_at(order, octets, CAPTURED_AT);
    packet_from(state, id, ENHANCED_AT, size, n - LEAST_ENHANCED, n)
}

fn interface_item(order: Order, state: State, n: usize, octets: &[u8]) -> Result<Item, Unread>
    requires { (least_interface ≤ n) × (n ≤ length octets.now) }
    ensures { result ≡ interface_item order state n octets.now }
{
    if state.described >= MAX_INTERFACES {
        return Err(Unread::Refused(TOO_MANY_INTERFACES));
    }
    Ok(Item::Interface {
        link: half_at(order, octets, FIELDS_AT),
        snap: word_at(order, octets, SNAP_AT),
        used: n,
    })
}

// The fewest octets of a block of this type.
pub fn least_of(kind: usize) -> usize
    ensures { (result ≡ least_of kind) × (block_head ≤ result) }
{
    if kind == INTERFACE_TYPE {
        return LEAST_INTERFACE;
    }
    if kind == SIMPLE_TYPE {
        return LEAST_SIMPLE;
    }
    if kind == ENHANCED_TYPE {
        return LEAST_ENHANCED;
    }
    if kind == PACKET_TYPE {
        return LEAST_ENHANCED;
    }
    BLOCK_HEAD
}

// What a whole block of a section holds.
pub fn body_item(
    kind: usize,
    order: Order,
    state: State,
    n: usize,
    octets: &[u8],
) -> Result<Item, Unread>
    requires { (least_of kind ≤ n) × (n ≤ length octets.now) }
    ensures { result ≡ body_item kind order state n octets.now }
{
    if kind == INTERFACE_TYPE {
        return interface_item(order, state, n, octets);
    }
    if kind == SIMPLE_TYPE {
        return simple_item(order, state, n, octets);
    }
    if kind == ENHANCED_TYPE {
        let id = word_at(order, octets, FIELDS_AT);
        return enhanced_item(order, state, id, n, octets);
    }
    if kind == PACKET_TYPE {
        let id = half_at(order, octets, FIELDS_AT) as usize;
        return enhanced_item(order, state, id, n, octets);
    }
    Ok(Item::Other(n))
}
