//! The pools for devices and the leases of devices that the tables have, as what is taken for
//! putting them. Each kind is read by a walk over its rows.

ghost use Rattle.std.specs.Prelude.{◌≡◌, ◌++◌, [], IfOk, OnOk};
ghost use Rattle.std.specs.List.{cons_option};
ghost use Rattle.off_outside.specs.KeeperCalls.{Looks, WalksOnce};
ghost use Rattle.off_runs.specs.Reading.{Walks};
ghost use Rattle.off_device_runs.specs.Reading.{pool_put, lease_put, pools_put, leases_put};

use crate::taking::push_taken;
use off_base::NoMemory;
use off_defs::{Key, Row, Write, Writes};
use off_outside::{KeepErr, Keeper};
use off_readers::{is_past_device_pools, next_behind};
use std::alloc::Global;

/// What is taken for putting the pools of the tables, and then the leases.
pub(crate) fn read_rows<K: Keeper>(alloc: Global, keeper: &mut K) -> Result<Writes, KeepErr>
    ensures told { Looks result (K.seen keeper.old) (K.seen keeper.new)
        (λ taken t. taken ≡ pools_put t ++ leases_put t) }
    ensures walks { Walks 2 (K.seen keeper.old) (K.seen keeper.new) }
{
    let mut taken = Writes::new(alloc);
    read_pools(alloc, keeper, &mut taken)?;
    read_leases(alloc, keeper, &mut taken)?;
    Ok(taken)
}

// Appends what is taken for putting the pools of the tables.
fn read_pools<K: Keeper>(alloc: Global, keeper: &mut K, taken: &mut Writes) -> Result<(), KeepErr>
    ensures told { Looks result (K.seen keeper.old) (K.seen keeper.new)
        (λ _ t. taken.new ≡ taken.old ++ pools_put t) }
    ensures walks { WalksOnce (K.seen keeper.old) (K.seen keeper.new) }
{
    let mut place = Key::PoolHub(u32::MAX);
    'walk: loop {
        let Some((key, row)) = next_behind(alloc, keeper, Some(place))? else {
            return Ok(());
        };
        if is_past_device_pools(&key) {
            return Ok(());
        }
        push_pool(alloc, taken, key, row)?;
        place = key;
    }
}

// Appends what is taken for putting a row, if it's a pool's for devices.
fn push_pool(alloc: Global, taken: &mut Writes, key: Key, row: Row) -> Result<(), NoMemory>
    ensures { OnOk result (taken.new ≡ taken.old ++ cons_option (pool_put (key, row)) []) }
{
    match key {
        Key::DevicePool(_) => push_taken(alloc, taken, &Write::Put(key, row)),
        _ => Ok(()),
    }
}

// Appends what is taken for putting the leases of the tables.
fn read_leases<K: Keeper>(alloc: Global, keeper: &mut K, taken: &mut Writes) -> Result<(), KeepErr>
    ensures told { Looks result (K.seen keeper.old) (K.seen keeper.new)
        (λ _ t. taken.new ≡ taken.old ++ leases_put t) }
    ensures walks { WalksOnce (K.seen keeper.old) (K.seen keeper.new) }
{
    let mut place = Key::DevicePool(u32::MAX);
    'walk: loop {
        let Some((key, row)) = next_behind(alloc, keeper, Some(place))? else {
            return Ok(());
        };
        push_lease(alloc, taken, key, row)?;
        place = key;
    }
}

// Appends what is taken for putting a row, if it's of a device's lease.
fn push_lease(alloc: Global, taken: &mut Writes, key: Key, row: Row) -> Result<(), NoMemory>
    ensures { OnOk result (taken.new ≡ taken.old ++ cons_option (lease_put (key, row)) []) }
{
    match key {
        Key::Device(_) => push_taken(alloc, taken, &Write::Put(key, row)),
        _ => Ok(()),
    }
}
