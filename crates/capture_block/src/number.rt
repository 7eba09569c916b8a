// Numbers of whole octets in either order.
ghost use Rattle.std.specs.Prelude.{◌≡◌, ◌+◌, ◌*◌, ◌<◌, ◌≤◌, length};
ghost use Rattle.wire_spec.specs.Bits.{quad_of};
ghost use Rattle.capture_spec.specs.Numbers.{block_head, half_at, head_order, is_magic, ordering, section_order, word_at, word_size};

use capture_spec::format::{FIELDS_AT, MAGIC_MICRO, MAGIC_NANO, ORDER_MAGIC};
use capture_spec::state::Order;

fn pair(a: u8, b: u8) -> u32
    ensures { result ≡ a * 256 + b }
{
    (a as u32) * 256 + (b as u32)
}

fn quad(a: u8, b: u8, c: u8, d: u8) -> usize
    ensures { (result ≡ quad_of a b c d) × (result < 4294967296) }
{
    (((a as usize) * 256 + (b as usize)) * 256 + (c as usize)) * 256 + (d as usize)
}

// The two octets at `at`.
pub fn half_at(order: Order, octets: &[u8], at: usize) -> u32
    requires { at + 2 ≤ length octets.now }
    ensures { result ≡ half_at order octets.now at }
{
    match order {
        Order::Big => pair(octets[at], octets[at + 1]),
        Order::Little => pair(octets[at + 1], octets[at]),
    }
}

// The four octets at `at`.
pub fn word_at(order: Order, octets: &[u8], at: usize) -> usize
    requires { at + 4 ≤ length octets.now }
    ensures { (result ≡ word_at order octets.now at) × (result < 4294967296) }
{
    match order {
        Order::Big => quad(octets[at], octets[at + 1], octets[at + 2], octets[at + 3]),
        Order::Little => quad(octets[at + 3], octets[at + 2], octets[at + 1], octets[at]),
    }
}

fn is_magic(x: usize) -> bool
    ensures { result ≡ is_magic x }
{
    (x == MAGIC_MICRO) | (x == MAGIC_NANO)
}

fn order_by(big: bool, little: bool) -> Option<Order>
    ensures { result ≡ ordering big little }
{
    if big {
        return Some(Order::Big);
    }
    if little {
        return Some(Order::Little);
    }
    None
}

// By the magic number of pcap.
pub fn head_order(octets: &[u8]) -> Option<Order>
    requires { word_size ≤ length octets.now }
    ensures { result ≡ head_order octets.now }
{
    let big = is_magic(word_at(Order::Big, octets, 0));
    let little = is_magic(word_at(Order::Little, octets, 0));
    order_by(big, little)
}

// By the Byte-Order Magic of a section.
pub fn section_order(octets: &[u8]) -> Option<Order>
    requires { block_head ≤ length octets.now }
    ensures { result ≡ section_order octets.now }
{
    let big = word_at(Order::Big, octets, FIELDS_AT) == ORDER_MAGIC;
    let little = word_at(Order::Little, octets, FIELDS_AT) == ORDER_MAGIC;
    order_by(big, little)
}
