//! The leases of devices that the tables have, read by a walk over their rows.

ghost use Rattle.std.specs.Prelude.{◌≡◌, ◌<◌, ◌++◌, [], ◌∷◌, ℕ, OnOk, vec_len};
ghost use Rattle.std.specs.List.{filter, cons_option};
ghost use Rattle.off_account_rules.specs.Rows.{device_of, devices};
ghost use Rattle.off_behind.specs.Buckets.{bucket_at, is_in, Indexes};
ghost use Rattle.off_outside.specs.KeeperCalls.{Looks, WalksOnce};

use crate::bucket::Bucket;
use crate::buckets::{bucket_of, push_to};
use crate::leases::owner_of;
use off_base::{Ip4, NoMemory};
use off_defs::{DeviceLease, Key, Row};
use off_outside::{KeepErr, Keeper};
use off_readers::next_behind;
use std::alloc::Global;

/// Buckets without leases take those of the tables.
pub(crate) fn take_all<K: Keeper>(
    alloc: Global,
    keeper: &mut K,
    buckets: &mut Vec<Bucket>,
) -> Result<(), KeepErr>
    requires len { vec_len buckets.old ≡ 16384 }
    requires none { (place : ℕ) → bucket_at buckets.old.items place ≡ [] }
    ensures told { Looks result (K.seen keeper.old) (K.seen keeper.new)
        (λ _ t. Indexes buckets.new.items (devices t)) }
    ensures walks { WalksOnce (K.seen keeper.old) (K.seen keeper.new) }
    ensures len { vec_len buckets.new ≡ 16384 }
{
    let mut place = Key::DevicePool(u32::MAX);
    'walk: loop {
        let Some((key, row)) = next_behind(alloc, keeper, Some(place))? else {
            return Ok(());
        };
        take_row(buckets, key, row)?;
        place = key;
    }
}

// Takes the lease of a row, if it's a device's that has a modem.
fn take_row(buckets: &mut Vec<Bucket>, key: Key, row: Row) -> Result<(), NoMemory>
    requires { vec_len buckets.old ≡ 16384 }
    ensures len { vec_len buckets.new ≡ vec_len buckets.old }
    ensures taken { OnOk result ((place : ℕ) → place < 16384
        → bucket_at buckets.new.items place
        ≡ bucket_at buckets.old.items place
        ++ filter (is_in place) (cons_option (device_of (key, row)) [])) }
{
    match key {
        Key::Device(address) => match row {
            Row::Device(lease) => take_lease(buckets, address, lease),
            _ => Ok(()),
        },
        _ => Ok(()),
    }
}

// Appends a lease to the bucket of its modem, if it has one.
fn take_lease(buckets: &mut Vec<Bucket>, address: Ip4, lease: DeviceLease) -> Result<(), NoMemory>
    requires { vec_len buckets.old ≡ 16384 }
    ensures len { vec_len buckets.new ≡ vec_len buckets.old }
    ensures taken { OnOk result ((place : ℕ) → place < 16384
        → bucket_at buckets.new.items place
        ≡ bucket_at buckets.old.items place
        ++ filter (is_in place) ((address, lease) ∷ [])) }
{
    match owner_of(lease.hold) {
        Some(owner) => push_to(buckets, bucket_of(owner.0), address, lease),
        None => Ok(()),
    }
}
