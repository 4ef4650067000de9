//! Rows by plain reading, each by its key, and pools by a walk over all entries. An impossible row
//! is taken as one that isn't there.

use off_base::{Ip4, Items, Mac, Moment};
use off_defs::{Key, Lease, Modem, Pool, Row, Site};
use off_keepmem::MemKeeper;
use off_outside::{KeepErr, Keeper};
use std::alloc::Global;

/// The site of a hub.
pub fn site_in(alloc: Global, keeper: &mut MemKeeper, hub: u32) -> Result<Option<Site>, KeepErr> {
    let row = keeper.get(alloc, &Key::Hub(hub))?;
    Ok(match &row {
        Some(Row::Site(site)) if site_fits(site) => Some(site.copy()),
        _ => None,
    })
}

// A site has an address and a secret of 1 to 64 bytes; it lies within a day of UTC, and its leases
// last a minute to a week.
fn site_fits(site: &Site) -> bool {
    let secret = site.secret.as_slice().len();
    site.server.0 != 0
        && 1 <= secret
        && secret <= 64
        && -86_400 <= site.offset
        && site.offset <= 86_400
        && 60 <= site.lease
        && site.lease <= 604_800
}

/// The number of a pool's hub, which is 0 where none is named.
pub fn hub_in(alloc: Global, keeper: &mut MemKeeper, number: u32) -> Result<u32, KeepErr> {
    let row = keeper.get(alloc, &Key::PoolHub(number))?;
    Ok(match &row {
        Some(Row::PoolHub(hub)) => *hub,
        _ => 0,
    })
}

/// The modem of a hardware address.
pub fn modem_in(alloc: Global, keeper: &mut MemKeeper, mac: Mac) -> Result<Option<Modem>, KeepErr> {
    let row = keeper.get(alloc, &Key::Modem(mac))?;
    Ok(match &row {
        Some(Row::Modem(modem)) => Some(modem.copy()),
        _ => None,
    })
}

/// The address that a modem holds.
pub fn held_in(alloc: Global, keeper: &mut MemKeeper, mac: Mac) -> Result<Option<Ip4>, KeepErr> {
    let row = keeper.get(alloc, &Key::Held(mac))?;
    Ok(match &row {
        Some(Row::Held(at)) => Some(*at),
        _ => None,
    })
}

/// The lease of an address.
pub fn lease_in(alloc: Global, keeper: &mut MemKeeper, at: Ip4) -> Result<Option<Lease>, KeepErr> {
    let row = keeper.get(alloc, &Key::Lease(at))?;
    Ok(match &row {
        Some(Row::Lease(lease)) => Some(*lease),
        _ => None,
    })
}

/// All pools with their numbers, in the order of these.
pub fn pools_in(alloc: Global, keeper: &mut MemKeeper) -> Result<Items<(u32, Pool)>, KeepErr> {
    let mut pools = Items::new(alloc);
    let mut place: Option<Key> = None;
    for _entry in 0..u64::MAX {
        let Some((key, row)) = keeper.next(alloc, place.as_ref())? else {
            return Ok(pools);
        };
        if let Some(pool) = pool_of(&key, &row) {
            pools.push(pool)?;
        }
        place = Some(key);
    }
    Ok(pools)
}

fn pool_of(key: &Key, row: &Row) -> Option<(u32, Pool)> {
    match (key, row) {
        (Key::Pool(number), Row::Pool(pool)) if pool_fits(pool) => Some((*number, *pool)),
        _ => None,
    }
}

// A pool has 1 to 4,096 addresses, a prefix of 8 to 30 bits, and a relay.
fn pool_fits(pool: &Pool) -> bool {
    let first = pool.first.0;
    let last = pool.last.0;
    first <= last
        && last.wrapping_sub(first) < 4096
        && 8 <= pool.prefix
        && pool.prefix <= 30
        && pool.relay.0 != 0
}

/// Whether the pool has the address.
pub fn has(pool: &Pool, address: Ip4) -> bool {
    pool.first.0 <= address.0 && address.0 <= pool.last.0
}

/// Whether the address has no lease, or one that has ended.
pub fn has_ended(
    alloc: Global,
    keeper: &mut MemKeeper,
    now: Moment,
    at: Ip4,
) -> Result<bool, KeepErr> {
    Ok(match lease_in(alloc, keeper, at)? {
        Some(lease) => lease.expiry.0 <= now.0,
        None => true,
    })
}

/// The least free address of a pool.
pub fn least_in(
    alloc: Global,
    keeper: &mut MemKeeper,
    now: Moment,
    pool: &Pool,
) -> Result<Option<Ip4>, KeepErr> {
    for at in pool.first.0..=pool.last.0 {
        if has_ended(alloc, keeper, now, Ip4(at))? {
            return Ok(Some(Ip4(at)));
        }
    }
    Ok(None)
}

/// The address for a client of the pool: the one that it holds, where the pool has it; else the one
/// that it asks for, where that is free; else the least that is free.
pub fn choice_in(
    alloc: Global,
    keeper: &mut MemKeeper,
    now: Moment,
    pool: &Pool,
    held: Option<Ip4>,
    asked: Option<Ip4>,
) -> Result<Option<Ip4>, KeepErr> {
    if let Some(own) = held {
        if has(pool, own) {
            return Ok(Some(own));
        }
    }
    if let Some(asked) = asked {
        if has(pool, asked) && has_ended(alloc, keeper, now, asked)? {
            return Ok(Some(asked));
        }
    }
    least_in(alloc, keeper, now, pool)
}
