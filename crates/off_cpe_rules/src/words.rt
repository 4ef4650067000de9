ghost use Rattle.std.specs.Prelude.{◌≡◌, ◌≤◌, length};
ghost use Rattle.off_cpe_rules.specs.Words.{device_text};

/// What became of a device's message: four kinds that were served, or why it was refused.
#[derive(Clone, Copy, PartialEq, Eq)]
pub enum DeviceWord {
    /// A DISCOVER was answered by an OFFER.
    Offer,
    /// A REQUEST was answered by an ACK.
    Ack,
    /// An address was declined.
    Declined,
    /// An address was released.
    Released,
    /// The message is of a kind that the office doesn't serve.
    NotServed,
    /// A REQUEST has none of the three forms.
    Form,
    /// No pool of devices serves the device.
    NoPool,
    /// The modem isn't on record, or its subscriber has no service.
    Suspended,
    /// The modem has no address at the moment.
    Offline,
    /// The message is meant for another server.
    OtherServer,
    /// As many other devices as the subscriber may have hold addresses behind the modem.
    Limit,
    /// No address of the pool is free.
    PoolFull,
    /// The device doesn't hold the address, or holds none.
    NoRecord,
    /// The address that the device asks for isn't its own.
    NotYours,
}

impl DeviceWord {
    /// The text with which the log has it.
    pub fn text(self) -> &'static [u8]
        ensures text { result.now ≡ device_text self }
        ensures short { length result.now ≤ 16 }
    {
        match self {
            DeviceWord::Offer => b"cpe-offer",
            DeviceWord::Ack => b"cpe-ack",
            DeviceWord::Declined => b"cpe-declined",
            DeviceWord::Released => b"cpe-released",
            DeviceWord::NotServed => b"not-served",
            DeviceWord::Form => b"cpe-form",
            DeviceWord::NoPool => b"cpe-no-pool",
            DeviceWord::Suspended => b"cpe-suspended",
            DeviceWord::Offline => b"cpe-offline",
            DeviceWord::OtherServer => b"cpe-other-server",
            DeviceWord::Limit => b"cpe-limit",
            DeviceWord::PoolFull => b"cpe-pool-full",
            DeviceWord::NoRecord => b"cpe-no-record",
            DeviceWord::NotYours => b"cpe-not-yours",
        }
    }
}
