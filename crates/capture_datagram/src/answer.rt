// What a captured packet holds for a port.

#[derive(Clone, Copy)]
pub enum Found {
    // The payload of a datagram to the port: the octets from `start` to `end`.
    Frame { start: usize, end: usize },
    // Another protocol, another port, a header that is malformed, or a link type that is not taken.
    Passed,
    // A fragment of a UDP datagram, to whatever port.
    Fragment,
    // The captured octets end before what decides, or before the payload does.
    Cut,
}
