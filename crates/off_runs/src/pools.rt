//! Loops over the pools that are kept.

ghost use Rattle.std.specs.Prelude.{◌≡◌, ◌≤◌, ◌<◌, ◌==◌, ◌&&◌, ℕ, Bool, true, false, length};
ghost use Rattle.std.specs.Prelude.{vec_len, slice_get};
ghost use Rattle.std.specs.List.{find};
ghost use Rattle.std.specs.Vec.{vec_capacity};
ghost use Rattle.off_runs.specs.Runs.{in_pool};
ghost use Rattle.off_runs.specs.Changes.{EachBecomes, IsSame, Wrote, CopiedAll, Rehubbed, hub_or_0};

use crate::pool_runs::PoolRuns;
use off_base::{Ip4, Moment};

/// All pools come to a moment.
pub(crate) fn pass_all(pools: &mut Vec<PoolRuns>, now: Moment)
    ensures each { EachBecomes IsSame pools.old.items pools.new.items }
    ensures len { vec_len pools.new ≡ vec_len pools.old }
    ensures capacity { vec_capacity pools.new ≡ vec_capacity pools.old }
{
    for pool in pools.iter_mut() {
        pool.pass(now);
    }
}

/// All pools come to a moment, unless it's the one to which they came last.
pub(crate) fn pass_since(pools: &mut Vec<PoolRuns>, last: Moment, now: Moment)
    ensures each { EachBecomes IsSame pools.old.items pools.new.items }
    ensures len { vec_len pools.new ≡ vec_len pools.old }
    ensures capacity { vec_capacity pools.new ≡ vec_capacity pools.old }
{
    if last.0 != now.0 {
        pass_all(pools, now);
    }
}

/// All pools that have the address keep that its lease ends then.
pub(crate) fn set_all(pools: &mut Vec<PoolRuns>, address: Ip4, expiry: u64)
    ensures each { EachBecomes (Wrote address.0 expiry) pools.old.items pools.new.items }
    ensures len { vec_len pools.new ≡ vec_len pools.old }
    ensures capacity { vec_capacity pools.new ≡ vec_capacity pools.old }
{
    for pool in pools.iter_mut() {
        pool.set(address, expiry);
    }
}

/// All pools of the number have the hub from now on.
pub(crate) fn rehub_all(pools: &mut Vec<PoolRuns>, number: u32, hub: u32)
    ensures each { EachBecomes (Rehubbed number hub) pools.old.items pools.new.items }
    ensures len { vec_len pools.new ≡ vec_len pools.old }
    ensures capacity { vec_capacity pools.new ≡ vec_capacity pools.old }
{
    for pool in pools.iter_mut() {
        pool.rehub(number, hub);
    }
}

/// A pool takes the expiries of all pools of the list.
pub(crate) fn gather(fresh: &mut PoolRuns, pools: &Vec<PoolRuns>)
    ensures { CopiedAll pools.now.items pools.now.items fresh.old fresh.new }
{
    for place in 0..pools.len() {
        fresh.copy(&pools[place]);
    }
}

/// Where the first pool stands that is behind a relay: past the end, where there is none.
pub(crate) fn place_behind(pools: &Vec<PoolRuns>, relay: Ip4) -> usize
    ensures { slice_get pools.now.items result
        ≡ find (λ p. p.pool.relay.0 == relay.0) pools.now.items }
{
    let mut place = 0;
    'seek: while place < pools.len() && pools[place].pool().relay.0 != relay.0 {
        place += 1;
    }
    place
}

/// Where the first pool stands that has an address.
pub(crate) fn place_with(pools: &Vec<PoolRuns>, address: Ip4) -> usize
    ensures { slice_get pools.now.items result
        ≡ find (λ p. in_pool p.pool address.0) pools.now.items }
{
    let mut place = 0;
    'seek: while place < pools.len() && !pools[place].has(address) {
        place += 1;
    }
    place
}

/// Where the first pool of a number stands.
pub(crate) fn place_numbered(pools: &Vec<PoolRuns>, number: u32) -> usize
    ensures { slice_get pools.now.items result
        ≡ find (λ p. p.number == number) pools.now.items }
{
    let mut place = 0;
    'seek: while place < pools.len() && pools[place].number() != number {
        place += 1;
    }
    place
}

/// The hub of the first pool of a number, or 0 where there is none.
pub(crate) fn hub_numbered(pools: &Vec<PoolRuns>, number: u32) -> u32
    ensures { result ≡ hub_or_0 (find (λ p. p.number == number) pools.now.items) }
{
    let place = place_numbered(pools, number);
    match pools.get(place) {
        Some(pool) => pool.hub(),
        None => 0,
    }
}
