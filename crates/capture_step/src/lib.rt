#![tactic(auto)]
// One step over a capture: the item at the front, and where the reading stands behind it.
//
// `begin`, `item_at` and `next_state` are the entry points.
ghost use Rattle.std.specs.Prelude.{◌≡◌, ◌+◌, ◌<◌, ◌≤◌, length};
ghost use Rattle.capture_spec.specs.Numbers.{block_head, least_section, max_interfaces};
ghost use Rattle.capture_spec.specs.Step.{Fits, begun_as, behind, block_extent, block_item, head_by, interface_added, opened, record_item, section_by, section_head, start_item, step_of};

use capture_block::block::{block_extent, body_item, least_of, record_extent};
use capture_block::number::{head_order, section_order, word_at};
use capture_spec::format::{
    BLOCK_HEAD, HEAD_SIZE, LEAST_SECTION, LENGTHS_DISAGREE, LINK_AT, LINK_TYPES, MAX_INTERFACES,
    NOT_A_CAPTURE, RECORD_HEAD, SECTION_TYPE, WORD_SIZE,
};
use capture_spec::state::{Container, Item, Order, Place, State, Unread};

// Before the first octet.
pub fn begin() -> State
    ensures { result ≡ opened }
{
    State {
        container: Container::Unknown,
        links: [0u32; MAX_INTERFACES],
        described: 0,
        snap: 0,
    }
}

fn head_item(octets: &[u8], by: Option<Order>) -> Result<Item, Unread>
    ensures { result ≡ head_by by octets.now }
{
    match by {
        None => Err(Unread::Refused(NOT_A_CAPTURE)),
        Some(order) => {
            if octets.len() < HEAD_SIZE {
                return Err(Unread::Short);
            }
            let link = (word_at(order, octets, LINK_AT) % LINK_TYPES) as u32;
            Ok(Item::Head {
                container: Container::Classic { order, link },
                used: HEAD_SIZE,
            })
        }
    }
}

fn record_item(order: Order, link: u32, octets: &[u8]) -> Result<Item, Unread>
    ensures { result ≡ record_item order link octets.now }
{
    let n = record_extent(order, octets)?;
    Ok(Item::Packet {
        place: Place {
            at: RECORD_HEAD,
            size: n - RECORD_HEAD,
            link,
        },
        used: n,
    })
}

// The head of a section in this order.
fn section_head(order: Order, octets: &[u8]) -> Result<Item, Unread>
    requires { block_head ≤ length octets.now }
    ensures { result ≡ section_head order (block_extent order least_section octets.now) }
{
    let used = block_extent(order, LEAST_SECTION, octets)?;
    Ok(Item::Head {
        container: Container::Section(order),
        used,
    })
}

fn section_item(octets: &[u8], by: Option<Order>) -> Result<Item, Unread>
    requires { block_head ≤ length octets.now }
    ensures { result ≡ section_by by octets.now }
{
    match by {
        None => Err(Unread::Refused(LENGTHS_DISAGREE)),
        Some(order) => section_head(order, octets),
    }
}

fn start_item(octets: &[u8]) -> Result<Item, Unread>
    ensures { result ≡ start_item octets.now }
{
    if octets.len() < WORD_SIZE {
        return Err(Unread::Short);
    }
    if word_at(Order::Big, octets, 0) != SECTION_TYPE {
        return head_item(octets, head_order(octets));
    }
    if octets.len() < BLOCK_HEAD {
        return Err(Unread::Short);
    }
    section_item(octets, section_order(octets))
}

fn block_item(order: Order, state: State, octets: &[u8]) -> Result<Item, Unread>
    ensures { result ≡ block_item order state octets.now }
{
    if octets.len() < BLOCK_HEAD {
        return Err(Unread::Short);
    }
    let kind = word_at(order, octets, 0);
    if kind == SECTION_TYPE {
        return section_item(octets, section_order(octets));
    }
    let n = block_extent(order, least_of(kind), octets)?;
    body_item(kind, order, state, n, octets)
}

// The item at the front of the octets.
pub fn item_at(state: State, octets: &[u8]) -> Result<Item, Unread>
    ensures value { result ≡ step_of state octets.now }
    ensures fits { Fits result (length octets.now) }
{
    let container = state.container;
    match container {
        Container::Unknown => start_item(octets),
        Container::Classic { order, link } => record_item(order, link, octets),
        Container::Section(order) => block_item(order, state, octets),
    }
}

fn begin_as(state: State, container: Container) -> State
    ensures { result ≡ begun_as state container }
{
    let links = state.links;
    State {
        container,
        links,
        described: 0,
        snap: 0,
    }
}

fn add_interface(state: State, link: u32, snap: usize) -> State
    requires { state.described < max_interfaces }
    ensures { result ≡ interface_added state link snap }
{
    let at = state.described;
    let mut next = state;
    next.links[at] = link;
    next.described = at + 1;
    if at == 0 {
        next.snap = snap;
    }
    next
}

// Where the reading stands behind an item.
pub fn next_state(state: State, item: Result<Item, Unread>) -> State
    ensures { result ≡ behind state item }
{
    let Ok(read) = item else {
        return state;
    };
    match read {
        Item::Head { container, used: _ } => begin_as(state, container),
        Item::Interface {
            link,
            snap,
            used: _,
        } => {
            if state.described >= MAX_INTERFACES {
                return state;
            }
            add_interface(state, link, snap)
        }
        Item::Packet { place: _, used: _ } => state,
        Item::Other(_) => state,
    }
}
