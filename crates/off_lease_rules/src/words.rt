ghost use Rattle.std.specs.Prelude.{◌≡◌, ◌≤◌, length};
ghost use Rattle.off_lease_rules.specs.Words.{word_text};

/// What became of a DHCP datagram: four kinds of messages that were served, or why it was refused.
#[derive(Clone, Copy, PartialEq, Eq)]
pub enum DhcpWord {
    /// A DISCOVER was answered by an OFFER.
    Offer,
    /// A REQUEST was answered by an ACK.
    Ack,
    /// An address was declined.
    Declined,
    /// An address was released.
    Released,
    // The datagram is no message that the office reads, by the faults of `off_dhcp`.
    Short,
    Long,
    NotRequest,
    Hardware,
    Cookie,
    OptionCut,
    NoType,
    Overload,
    /// The hub of the message's pool has no row.
    NoSite,
    /// The message is of a kind that the office doesn't serve.
    NotServed,
    /// A REQUEST has none of the three forms.
    RequestForm,
    /// A part of option 43 or 82 passes the option's end.
    PartCut,
    /// The relay names another client than the message.
    RelayMismatch,
    /// The client doesn't say that it's a cable modem.
    NotAModem,
    /// No pool serves the client.
    NoRelayPool,
    /// The client is no modem of the operator.
    UnknownModem,
    /// The modem's serial number isn't the one on record.
    SerialMismatch,
    /// The message is meant for another server.
    OtherServer,
    /// No address of the pool is free.
    PoolFull,
    /// The client doesn't hold the address, or holds none.
    NoRecord,
    /// The address that the client asks for isn't its own.
    NotYourAddress,
}

impl DhcpWord {
    /// The text with which the log has it.
    pub fn text(self) -> &'static [u8]
        ensures text { result.now ≡ word_text self }
        ensures short { length result.now ≤ 16 }
    {
        match self {
            DhcpWord::Offer => b"offer",
            DhcpWord::Ack => b"ack",
            DhcpWord::Declined => b"declined",
            DhcpWord::Released => b"released",
            DhcpWord::Short => b"dhcp-short",
            DhcpWord::Long => b"dhcp-long",
            DhcpWord::NotRequest => b"dhcp-not-request",
            DhcpWord::Hardware => b"dhcp-hardware",
            DhcpWord::Cookie => b"dhcp-cookie",
            DhcpWord::OptionCut => b"dhcp-option-cut",
            DhcpWord::NoType => b"dhcp-no-type",
            DhcpWord::Overload => b"dhcp-overload",
            DhcpWord::NoSite => b"no-site",
            DhcpWord::NotServed => b"not-served",
            DhcpWord::RequestForm => b"request-form",
            DhcpWord::PartCut => b"part-cut",
            DhcpWord::RelayMismatch => b"relay-mismatch",
            DhcpWord::NotAModem => b"not-a-modem",
            DhcpWord::NoRelayPool => b"no-relay-pool",
            DhcpWord::UnknownModem => b"unknown-modem",
            DhcpWord::SerialMismatch => b"serial-mismatch",
            DhcpWord::OtherServer => b"other-server",
            DhcpWord::PoolFull => b"pool-full",
            DhcpWord::NoRecord => b"no-record",
            DhcpWord::NotYourAddress => b"not-your-address",
        }
    }
}
