use crate::settings::SharedSettings;
use off_base::{Ip4, Mac, Moment, Secret, Short};

/// What the modems of one hub share: the office's address there, the secret of their CMTS, and what
/// their leases and files say of the place.
#[derive(Drop)]
pub struct Site {
    /// The office's own address.
    pub server: Ip4,
    /// What the CMTS shares with the office, for the MIC of a configuration file.
    pub secret: Secret,
    /// The site's time zone: seconds to add to UTC (RFC 2132, section 3.4).
    pub offset: i32,
    /// How many seconds a lease lasts.
    pub lease: u32,
    /// Where modems send their logs (RFC 2132, section 3.9), or 0.0.0.0.
    pub log: Ip4,
}

/// A subscriber of the operator.
#[derive(Drop)]
pub struct Subscriber {
    /// Whether the subscriber's modems have service.
    pub active: bool,
    /// How many devices may be behind a modem.
    pub cpes: u8,
    pub name: Short,
}

/// A cable modem.
#[derive(Drop)]
pub struct Modem {
    /// The number of its subscriber.
    pub subscriber: u32,
    /// The number of its class of service.
    pub class: u32,
    /// The serial number on its label.
    pub serial: Short,
}

/// A class of service.
#[derive(Drop)]
pub struct Class {
    pub name: Short,
    /// What a configuration file of the class has.
    pub settings: SharedSettings,
}

/// A pool of addresses, from which modems behind one relay (RFC 3046) are served, or devices behind
/// modems.
#[derive(Clone, Copy, PartialEq, Eq)]
pub struct Pool {
    pub first: Ip4,
    pub last: Ip4,
    /// How many leading bits of an address name its network.
    pub prefix: u8,
    pub router: Ip4,
    pub relay: Ip4,
}

/// Who holds an address.
#[derive(Clone, Copy, PartialEq, Eq)]
pub enum Hold {
    /// It was offered to a modem.
    Offered(Mac),
    /// A modem has it.
    Bound(Mac),
    /// A modem found it in use, and declined it.
    Declined,
}

/// The lease of an address (RFC 2131).
#[derive(Clone, Copy, PartialEq, Eq)]
pub struct Lease {
    pub hold: Hold,
    pub expiry: Moment,
}

/// Which device behind which modem holds an address.
#[derive(Clone, Copy, PartialEq, Eq)]
pub enum DeviceHold {
    /// It was offered to a modem's device: the modem, and the device.
    Offered(Mac, Mac),
    /// A modem's device has it: the modem, and the device.
    Bound(Mac, Mac),
    /// A device found it in use, and declined it.
    Declined,
}

/// The lease of a device's address (RFC 2131).
#[derive(Clone, Copy, PartialEq, Eq)]
pub struct DeviceLease {
    pub hold: DeviceHold,
    pub expiry: Moment,
}

/// Which rows an import has.
#[derive(Clone, Copy, PartialEq, Eq)]
pub enum ImportKind {
    Subscribers,
    Modems,
}

/// An import that was done.
#[derive(Clone, Copy, PartialEq, Eq)]
pub struct Batch {
    pub kind: ImportKind,
    /// The MD5 digest (RFC 1321) of its body.
    pub digest: [u8; 16],
    /// How many rows it put.
    pub rows: u32,
}

/// A row of the office's tables. The keys of each kind have rows of that kind: a hub has a site's
/// row, and a pool for devices a pool's.
#[derive(Drop)]
pub enum Row {
    Site(Site),
    Subscriber(Subscriber),
    AddOn(SharedSettings),
    Modem(Modem),
    Class(Class),
    Pool(Pool),
    Lease(Lease),
    Held(Ip4),
    Batch(Batch),
    /// The number of a pool's hub.
    PoolHub(u32),
    Device(DeviceLease),
}
