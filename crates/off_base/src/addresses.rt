/// An IPv4 address (RFC 791, section 3.1), its first byte the most significant.
#[derive(Clone, Copy, PartialEq, Eq, PartialOrd, Ord)]
pub struct Ip4(pub u32);

/// Who sent a datagram, or is sent one: an address and a UDP port (RFC 768).
#[derive(Clone, Copy, PartialEq, Eq, PartialOrd, Ord)]
pub struct Peer {
    pub ip: Ip4,
    pub port: u16,
}
