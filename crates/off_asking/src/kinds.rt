/// The kind of a client's message (RFC 2132, section 9.6).
#[derive(Clone, Copy, PartialEq, Eq)]
pub enum Kind {
    /// A client looks for an address.
    Discover,
    /// It asks for one that was offered, or for its own again.
    Request,
    /// The address is in use by somebody else.
    Decline,
    /// The client needs its address no more.
    Release,
    /// A kind that the office doesn't serve, by its number.
    Other(u8),
}
