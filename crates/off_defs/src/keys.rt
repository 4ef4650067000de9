use off_base::{Ip4, Mac};

/// The key of a row in the office's tables. Keys are ordered by kind, in this order, and then by
/// their numbers.
#[derive(Clone, Copy, PartialEq, Eq, PartialOrd, Ord)]
pub enum Key {
    /// The one site of an office of earlier days. When an office opens, it becomes the hub 0.
    Site,
    /// A subscriber, by number.
    Subscriber(u32),
    /// An add-on of a subscriber: the subscriber's number, and the add-on's own.
    AddOn(u32, u8),
    /// A cable modem, by its hardware address.
    Modem(Mac),
    /// A class of service, by number.
    Class(u32),
    /// A pool of addresses, by number.
    Pool(u32),
    /// The lease of an address.
    Lease(Ip4),
    /// The address that a modem holds.
    Held(Mac),
    /// An import of many rows, by number.
    Batch(u64),
    /// A hub, by number.
    Hub(u32),
    /// The hub of a pool of addresses, by the pool's number. A pool without one has the hub 0.
    PoolHub(u32),
    /// A pool of addresses for devices behind modems, by number.
    DevicePool(u32),
    /// The lease of a device's address.
    Device(Ip4),
}
