// Where the reading of a capture stands, and what stands at its front.
use crate::format::MAX_INTERFACES;

// The order of the octets of a number: most or least significant first.
#[derive(Clone, Copy)]
pub enum Order {
    Big,
    Little,
}

// Before the first octet; behind pcap's head, with the link type of all packets; or in a section of pcapng.
#[derive(Clone, Copy)]
pub enum Container {
    Unknown,
    Classic { order: Order, link: u32 },
    Section(Order),
}

// The first `described` of `links` are the link types of the section's interfaces, and `snap` is the first one's SnapLen.
// Kept as an array with a count: a section's interfaces come one by one, and memory is fixed.
#[derive(Clone, Copy)]
pub struct State {
    pub container: Container,
    pub links: [u32; MAX_INTERFACES],
    pub described: usize,
    pub snap: usize,
}

// The octets of a packet within an item.
#[derive(Clone, Copy)]
pub struct Place {
    pub at: usize,
    pub size: usize,
    pub link: u32,
}

// Why no item is read: it is not whole yet, or the number of a refusal.
#[derive(Clone, Copy)]
pub enum Unread {
    Short,
    // Kept as a number: the laws on short blocks (`ShortLaws`) say 82, and `pcapframes` prints it.
    Refused(u8),
}

// What stands at the front: the head of a capture or of a section; an interface; a packet; or another block.
#[derive(Clone, Copy)]
pub enum Item {
    Head { container: Container, used: usize },
    Interface { link: u32, snap: usize, used: usize },
    Packet { place: Place, used: usize },
    Other(usize),
}
