/// What became of a TFTP datagram.
#[derive(Clone, Copy, PartialEq, Eq)]
pub enum TftpWord {
    /// It is no packet that the office reads, or of a kind that it doesn't know.
    Form,
    /// A write request: nothing is written.
    Write,
    /// A read request in another mode than `octet`.
    Mode,
    /// A read request came again before anything was acknowledged: its first packet was sent again.
    Again,
    /// The address isn't bound to a modem.
    NoLease,
    /// The modem isn't the one for which the transfer began, or none of the operator's.
    Agreement,
    /// The name isn't that of the modem's file.
    Name,
    /// Too many transfers are live.
    Full,
    /// A read request was accepted, and what was read of its options is told.
    Oack,
    /// This block was sent.
    Block(u16),
    /// An acknowledgement came from a peer without a transfer.
    Unknown,
    /// It acknowledged another packet than the last one.
    StaleAck,
    /// The last block was acknowledged.
    Done,
    /// The peer gave up.
    PeerError,
}
