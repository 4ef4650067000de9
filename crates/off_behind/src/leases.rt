//! Leases of devices in the order of their addresses.

ghost use Rattle.std.specs.Prelude.{◌≡◌, ◌&&◌, ◌<◌, length};
ghost use Rattle.off_account_rules.specs.Rows.{passes};
ghost use Rattle.off_account_rules.specs.Good.{is_mac, device_owner, is_same_owner};
ghost use Rattle.off_cpe_rules.specs.Behind.{is_live, is_owned, is_behind};
ghost use Rattle.off_behind.specs.Neighbours.{AreNeighbours};

use off_base::{Ip4, Mac, Moment};
use off_defs::{DeviceHold, DeviceLease};

/// What the leases behind a modem are to one of its devices.
#[derive(Clone, Copy, PartialEq, Eq)]
pub struct Neighbours {
    /// The device's own lease, with its address.
    pub own: Option<(Ip4, DeviceLease)>,
    /// How many other devices have live leases.
    pub others: u64,
}

/// What the leases behind a modem are to one of its devices, of leases that may be of other modems
/// too.
pub(crate) fn neighbours_among(
    leases: &[(Ip4, DeviceLease)],
    now: Moment,
    modem: Mac,
    device: Mac,
) -> Neighbours
    ensures { AreNeighbours result now.0 modem device leases.now }
{
    let mut own = None;
    let mut others = 0_u64;
    for entry in leases {
        if is_behind(modem, entry.1) {
            if is_owned(modem, device, entry.1) {
                own = own.or(Some(*entry));
            } else if is_live(now, entry.1) {
                others += 1;
            }
        }
    }
    Neighbours { own, others }
}

fn is_live(now: Moment, lease: DeviceLease) -> bool
    ensures { result ≡ is_live now.0 lease }
{
    now.0 < lease.expiry.0
}

fn is_behind(modem: Mac, lease: DeviceLease) -> bool
    ensures { result ≡ is_behind modem lease }
{
    match owner_of(lease.hold) {
        Some(owner) => is_mac(modem, owner.0),
        None => false,
    }
}

fn is_owned(modem: Mac, device: Mac, lease: DeviceLease) -> bool
    ensures { result ≡ is_owned modem device lease }
{
    match owner_of(lease.hold) {
        Some(owner) => is_mac(modem, owner.0) && is_mac(device, owner.1),
        None => false,
    }
}

/// The modem and the device that have an address.
pub fn owner_of(hold: DeviceHold) -> Option<(Mac, Mac)>
    ensures { result ≡ device_owner hold }
{
    match hold {
        DeviceHold::Offered(modem, device) => Some((modem, device)),
        DeviceHold::Bound(modem, device) => Some((modem, device)),
        DeviceHold::Declined => None,
    }
}

/// Whether two hardware addresses are one.
pub fn is_mac(mac: Mac, other: Mac) -> bool
    ensures { result ≡ is_mac mac other }
{
    mac.cmp(&other).is_eq()
}
