//! The rows of pools and of leases, which are those of modems or those of their devices: a walk
//! over them is told whose rows it goes over.

ghost use Rattle.std.specs.Prelude.{◌≡◌, nat_lt};
ghost use Rattle.off_defs.specs.Kinds.{kind_of};
ghost use Rattle.off_accounts.specs.Searches.{pool_number, lease_address, before_pools};
ghost use Rattle.off_accounts.specs.Searches.{before_leases, lease_key, pool_kind, lease_kind};

use off_base::Ip4;
use off_defs::Key;
use off_readers::{is_past_device_pools, is_past_pools as is_past_modem_pools};

/// Whose pools and leases.
#[derive(Clone, Copy, PartialEq, Eq)]
pub enum Whose {
    Modems,
    Devices,
}

/// The number of a pool's key.
pub(crate) fn pool_number(whose: Whose, key: Key) -> Option<u32>
    ensures { result ≡ pool_number whose key }
{
    match whose {
        Whose::Modems => match key {
            Key::Pool(n) => Some(n),
            _ => None,
        },
        Whose::Devices => match key {
            Key::DevicePool(n) => Some(n),
            _ => None,
        },
    }
}

/// The address of a lease's key.
pub(crate) fn lease_address(whose: Whose, key: Key) -> Option<Ip4>
    ensures { result ≡ lease_address whose key }
{
    match whose {
        Whose::Modems => match key {
            Key::Lease(address) => Some(address),
            _ => None,
        },
        Whose::Devices => match key {
            Key::Device(address) => Some(address),
            _ => None,
        },
    }
}

/// The key of a lease.
pub(crate) fn lease_key(whose: Whose, address: Ip4) -> Key
    ensures { result ≡ lease_key whose address }
{
    match whose {
        Whose::Modems => Key::Lease(address),
        Whose::Devices => Key::Device(address),
    }
}

/// The place behind which the pools come.
pub(crate) fn before_pools(whose: Whose) -> Key
    ensures { result ≡ before_pools whose }
{
    match whose {
        Whose::Modems => Key::Class(u32::MAX),
        Whose::Devices => Key::PoolHub(u32::MAX),
    }
}

/// The place behind which the leases come.
pub(crate) fn before_leases(whose: Whose) -> Key
    ensures { result ≡ before_leases whose }
{
    match whose {
        Whose::Modems => Key::Pool(u32::MAX),
        Whose::Devices => Key::DevicePool(u32::MAX),
    }
}

/// Whether all keys of pools are below this one.
pub(crate) fn is_past_pools(whose: Whose, key: &Key) -> bool
    ensures { result ≡ nat_lt (pool_kind whose) (kind_of key.now) }
{
    match whose {
        Whose::Modems => is_past_modem_pools(key),
        Whose::Devices => is_past_device_pools(key),
    }
}

/// Whether all keys of leases are below this one. No key is above those of devices.
#[tactic(auto, using(crate::proofs::LostLemmas::none_above))]
pub(crate) fn is_past_leases(whose: Whose, key: &Key) -> bool
    ensures { result ≡ nat_lt (lease_kind whose) (kind_of key.now) }
{
    match whose {
        Whose::Modems => match *key {
            Key::Lease(_) => false,
            _ => is_past_modem_pools(key),
        },
        Whose::Devices => false,
    }
}
