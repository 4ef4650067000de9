/// Why the bytes of a connection are no request.
#[derive(Clone, Copy, PartialEq, Eq)]
pub enum HttpFault {
    /// What comes up to the first blank line isn't exactly one head of at most 64 fields (RFC
    /// 9112, section 3).
    Head,
    /// The body is coded, or its length isn't given by 1 to 10 digits, or by two different numbers
    /// (RFC 9112, section 6).
    Body,
    /// No blank line ends within the first 8,192 bytes, or the declared body is over 1,048,576
    /// bytes.
    TooLong,
}

/// What a session answers to a piece.
#[derive(Clone, Copy, PartialEq, Eq)]
pub enum Fed {
    /// More bytes are awaited.
    Wait,
    /// The request is whole.
    Whole,
    /// The bytes are no request, whatever follows them.
    Bad(HttpFault),
}
