// Link types (the tcpdump group's page of link-layer header types).
ghost use Rattle.std.specs.Prelude.{◌≡◌};
ghost use Rattle.capture_datagram.specs.Link.{is_link_taken, link_of};

const ETHERNET: u32 = 1;

const LINUX_SLL: u32 = 113;

const LINUX_SLL2: u32 = 276;

// LINKTYPE_RAW, and the number of the same that some systems write.
const RAW: u32 = 101;

const SYSTEM_RAW: u32 = 12;

const IPV4: u32 = 228;

const IPV6: u32 = 229;

#[derive(Clone, Copy)]
pub enum Link {
    Ethernet,
    // Linux cooked captures, and their version 2.
    Cooked,
    CookedV2,
    // An IP packet of either version, or of one.
    Raw,
    Ipv4,
    Ipv6,
    Other,
}

pub fn link_of(number: u32) -> Link
    ensures { result ≡ link_of number }
{
    match number {
        ETHERNET => Link::Ethernet,
        LINUX_SLL => Link::Cooked,
        LINUX_SLL2 => Link::CookedV2,
        SYSTEM_RAW | RAW => Link::Raw,
        IPV4 => Link::Ipv4,
        IPV6 => Link::Ipv6,
        _ => Link::Other,
    }
}

// The packets of the link type are looked into.
pub fn is_link_taken(number: u32) -> bool
    ensures { result ≡ is_link_taken number }
{
    let link = link_of(number);
    match link {
        Link::Ethernet => true,
        Link::Cooked => true,
        Link::CookedV2 => true,
        Link::Raw => true,
        Link::Ipv4 => true,
        Link::Ipv6 => true,
        Link::Other => false,
    }
}
