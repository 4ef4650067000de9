use off_base::Ip4;
use off_defs::{Pool, Site, Subscriber};

/// The rows by which a device's message is judged. An impossible row is one that isn't there.
#[derive(Drop)]
pub struct DeviceCase {
    /// The pool of devices from which the device is served.
    pub pool: Option<Pool>,
    /// The modem's subscriber.
    pub subscriber: Option<Subscriber>,
    /// Whether the modem has an address at the moment.
    pub is_online: bool,
    /// The site of the hub of that address.
    pub site: Option<Site>,
    /// The device's own address behind this modem.
    pub own: Option<Ip4>,
    /// How many other devices have an address behind the modem at the moment.
    pub others: u64,
}
