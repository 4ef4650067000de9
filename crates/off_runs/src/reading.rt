//! The pools of the tables, their leases and their hubs, each read by a walk over the rows of its
//! kind.

ghost use Rattle.std.specs.Prelude.{◌≡◌, ◌<◌, ◌++◌, [], true, vec_len, OnOk};
ghost use Rattle.std.specs.List.{cons_option};
ghost use Rattle.std.specs.Vec.{vec_capacity};
ghost use Rattle.off_rows.specs.KeyBytes.{kind_of};
ghost use Rattle.off_outside.specs.KeeperCalls.{Looks, WalksOnce};
ghost use Rattle.off_runs.specs.Leases.{LeasesTaken, HubsTaken};
ghost use Rattle.off_runs.specs.Reading.{pool_put, lease_put, hub_put};
ghost use Rattle.off_runs.specs.Reading.{pools_put, leases_put, hubs_put};

use crate::leases::{take_hub, take_lease};
use crate::pool_runs::PoolRuns;
use off_base::NoMemory;
use off_defs::{Key, Row, Write, Writes};
use off_outside::{KeepErr, Keeper};
use off_readers::next_behind;
use std::alloc::Global;

/// The pools of the tables, as writes that put them.
pub(crate) fn read_pools<K: Keeper>(alloc: Global, keeper: &mut K) -> Result<Writes, KeepErr>
    ensures told { Looks result (K.seen keeper.old) (K.seen keeper.new)
        (λ writes t. writes ≡ pools_put t) }
    ensures walks { WalksOnce (K.seen keeper.old) (K.seen keeper.new) }
{
    let mut writes = Writes::new(alloc);
    let mut place = Key::Class(u32::MAX);
    'walk: loop {
        let Some((key, row)) = next_behind(alloc, keeper, Some(place))? else {
            return Ok(writes);
        };
        if is_past_pools(&key) {
            return Ok(writes);
        }
        push_pool(&mut writes, key, row)?;
        place = key;
    }
}

// Appends the write that puts a row, if it's a pool's.
fn push_pool(writes: &mut Writes, key: Key, row: Row) -> Result<(), NoMemory>
    ensures { OnOk result (writes.new ≡ writes.old ++ cons_option (pool_put (key, row)) []) }
{
    match key {
        Key::Pool(_) => writes.push(Write::Put(key, row)),
        _ => Ok(()),
    }
}

// Whether no pool comes at the key or behind it.
fn is_past_pools(key: &Key) -> bool
    ensures { result ≡ true → 6 < kind_of key.now }
{
    matches!(*key, Key::Lease(_)) || is_past_leases(key)
}

/// The pools take the leases of the tables.
pub(crate) fn take_kept_leases<K: Keeper>(
    alloc: Global,
    keeper: &mut K,
    pools: &mut Vec<PoolRuns>,
) -> Result<(), KeepErr>
    ensures told { Looks result (K.seen keeper.old) (K.seen keeper.new)
        (λ _ t. LeasesTaken (leases_put t) pools.old.items pools.new.items) }
    ensures walks { WalksOnce (K.seen keeper.old) (K.seen keeper.new) }
    ensures len { vec_len pools.new ≡ vec_len pools.old }
    ensures capacity { vec_capacity pools.new ≡ vec_capacity pools.old }
{
    let mut place = Key::Pool(u32::MAX);
    'walk: loop {
        let Some((key, row)) = next_behind(alloc, keeper, Some(place))? else {
            return Ok(());
        };
        if is_past_leases(&key) {
            return Ok(());
        }
        take_lease_row(pools, key, row);
        place = key;
    }
}

// The pools take the lease of a row, if it's one.
fn take_lease_row(pools: &mut Vec<PoolRuns>, key: Key, row: Row)
    ensures taken { LeasesTaken (cons_option (lease_put (key, row)) []) pools.old.items
        pools.new.items }
    ensures len { vec_len pools.new ≡ vec_len pools.old }
    ensures capacity { vec_capacity pools.new ≡ vec_capacity pools.old }
{
    match key {
        Key::Lease(_) => take_lease(pools, &Write::Put(key, row)),
        _ => {}
    }
}

// Whether no lease comes at the key or behind it.
fn is_past_leases(key: &Key) -> bool
    ensures { result ≡ true → 7 < kind_of key.now }
{
    match *key {
        Key::Held(_) | Key::Batch(_) | Key::Hub(_) | Key::PoolHub(_) => true,
        Key::DevicePool(_) | Key::Device(_) => true,
        _ => false,
    }
}

/// The pools take their hubs of the tables.
pub(crate) fn take_kept_hubs<K: Keeper>(
    alloc: Global,
    keeper: &mut K,
    pools: &mut Vec<PoolRuns>,
) -> Result<(), KeepErr>
    ensures told { Looks result (K.seen keeper.old) (K.seen keeper.new)
        (λ _ t. HubsTaken (hubs_put t) pools.old.items pools.new.items) }
    ensures walks { WalksOnce (K.seen keeper.old) (K.seen keeper.new) }
    ensures len { vec_len pools.new ≡ vec_len pools.old }
    ensures capacity { vec_capacity pools.new ≡ vec_capacity pools.old }
{
    let mut place = Key::Hub(u32::MAX);
    'walk: loop {
        let Some((key, row)) = next_behind(alloc, keeper, Some(place))? else {
            return Ok(());
        };
        if is_past_hubs(&key) {
            return Ok(());
        }
        take_hub_row(pools, key, row);
        place = key;
    }
}

// The pools take the hub of a row, if it's one.
fn take_hub_row(pools: &mut Vec<PoolRuns>, key: Key, row: Row)
    ensures taken { HubsTaken (cons_option (hub_put (key, row)) []) pools.old.items
        pools.new.items }
    ensures len { vec_len pools.new ≡ vec_len pools.old }
    ensures capacity { vec_capacity pools.new ≡ vec_capacity pools.old }
{
    match key {
        Key::PoolHub(_) => take_hub(pools, &Write::Put(key, row)),
        _ => {}
    }
}

// Whether no pool's hub comes at the key or behind it.
fn is_past_hubs(key: &Key) -> bool
    ensures { result ≡ true → 11 < kind_of key.now }
{
    matches!(*key, Key::DevicePool(_) | Key::Device(_))
}
