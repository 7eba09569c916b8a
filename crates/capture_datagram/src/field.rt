// Numbers in the octets of a packet, from the header at `at` on.
ghost use Rattle.std.specs.Prelude.{◌≡◌, ◌+◌, ◌≤◌, ◌<◌, leb, drop, get_or, length};
ghost use Rattle.capture_datagram.specs.Answer.{pair};

// At least `n` octets were captured there.
pub fn holds(packet: &[u8], at: usize, n: usize) -> bool
    requires { at ≤ length packet.now }
    ensures { result ≡ leb n (length (drop at packet.now)) }
{
    n <= packet.len() - at
}

// The octet `k` of the header.
pub fn octet(packet: &[u8], at: usize, k: usize) -> usize
    requires { at + k < length packet.now }
    ensures { result ≡ get_or (drop at packet.now) k 0 }
{
    wire_words::octet::wide(packet[at + k])
}

// The two octets from the octet `k` of the header on.
pub fn number(packet: &[u8], at: usize, k: usize) -> usize
    requires { at + k + 2 ≤ length packet.now }
    ensures { result ≡ pair (drop at packet.now) k }
{
    wire_words::octet::pair(packet[at + k], packet[at + k + 1]) as usize
}
