//! Which writes change the pools of modems, their leases and their hubs.

ghost use Rattle.std.specs.Prelude.{◌≡◌, ◌≤◌, ◌+◌, ℕ, []};
ghost use Rattle.std.specs.Prelude.{◌∷◌, cond, IfSome, IsTrue, vec_len};
ghost use Rattle.std.specs.Option.{option_map};
ghost use Rattle.std.specs.Vec.{vec_capacity};
ghost use Rattle.std.specs.Prelude.{Option};
ghost use Rattle.off_defs.specs.declared.tables.Pool.{Pool};
ghost use Rattle.off_account_rules.specs.Rows.{pool_fits};
ghost use Rattle.off_runs.specs.Held.{Ground};
ghost use Rattle.off_runs.specs.Leases.{pool_write, lease_write, hub_write, fitting, expiry_held};
ghost use Rattle.off_runs.specs.Leases.{hub_held, pools_after, pools_by, pool_puts, puts_pool};
ghost use Rattle.off_runs.specs.Leases.{LeasesTaken, HubsTaken};
ghost use Rattle.off_runs.specs.Shelf.{Shelved};

use crate::pool_runs::PoolRuns;
use crate::pools::{rehub_all, set_all};
use crate::shelf::take_pool;
use off_base::Ip4;
use off_defs::{Key, Pool, Row, Write, Writes};
use off_readers::is_possible;

/// Takes the pools of writes, each in its turn.
pub(crate) fn take_pools(
    pools: &mut Vec<PoolRuns>,
    aside: &mut Vec<PoolRuns>,
    spare: &mut Vec<PoolRuns>,
    writes: &Writes,
)
    requires room { vec_len pools.old + vec_len aside.old + vec_len spare.old
        ≤ vec_capacity pools.old }
    requires room_aside { vec_len pools.old + vec_len aside.old + vec_len spare.old
        ≤ vec_capacity aside.old }
    requires spare { pool_puts writes.now ≤ vec_len spare.old }
    ensures shelved { (g : Ground) (by : ℕ → Option Pool)
        → Shelved g by pools.old.items aside.old.items
        → Shelved g (pools_after by writes.now) pools.new.items aside.new.items }
    ensures kept { vec_capacity spare.old ≤ vec_capacity spare.new }
    ensures room { vec_capacity pools.old ≤ vec_capacity pools.new }
    ensures room_aside { vec_capacity aside.old ≤ vec_capacity aside.new }
    ensures all { vec_len pools.new + vec_len aside.new + vec_len spare.new
        ≡ vec_len pools.old + vec_len aside.old + vec_len spare.old }
{
    for place in 0..writes.len() {
        take_write(pools, aside, spare, writes.get(place));
    }
}

// Takes the pool of a write, if it's of a pool.
fn take_write(
    pools: &mut Vec<PoolRuns>,
    aside: &mut Vec<PoolRuns>,
    spare: &mut Vec<PoolRuns>,
    write: &Write,
)
    requires room { vec_len pools.old + vec_len aside.old + vec_len spare.old
        ≤ vec_capacity pools.old }
    requires room_aside { vec_len pools.old + vec_len aside.old + vec_len spare.old
        ≤ vec_capacity aside.old }
    requires spare { puts_pool write.now ≤ vec_len spare.old }
    ensures shelved { (g : Ground) (by : ℕ → Option Pool)
        → Shelved g by pools.old.items aside.old.items
        → Shelved g (pools_by (pool_write write.now) by) pools.new.items aside.new.items }
    ensures kept { vec_capacity spare.old ≤ vec_capacity spare.new }
    ensures room { vec_capacity pools.old ≤ vec_capacity pools.new }
    ensures room_aside { vec_capacity aside.old ≤ vec_capacity aside.new }
    ensures all { vec_len pools.new + vec_len aside.new + vec_len spare.new
        ≡ vec_len pools.old + vec_len aside.old + vec_len spare.old }
    ensures spent { vec_len spare.old ≤ vec_len spare.new + puts_pool write.now }
{
    let Some((number, pool)) = pool_write(write) else {
        return;
    };
    take_pool(pools, aside, spare, number, pool);
}

// The pool that a write makes of a number, or `None` where it's of no pool.
fn pool_write(write: &Write) -> Option<(u32, Option<Pool>)>
    ensures is { result ≡ pool_write write.now }
    ensures size { IfSome result (λ w. IfSome w.1 (λ pool. IsTrue (pool_fits pool))) }
    ensures puts { IfSome result (λ w. IfSome w.1 (λ _. puts_pool write.now ≡ 1)) }
{
    match write {
        Write::Put(Key::Pool(number), row) => Some((*number, fitting(row))),
        Write::Drop(Key::Pool(number)) => Some((*number, None)),
        _ => None,
    }
}

// The pool of a row, or `None` where it's none that may stand.
fn fitting(row: &Row) -> Option<Pool>
    ensures fits { result ≡ fitting row.now }
    ensures size { IfSome result (λ pool. IsTrue (pool_fits pool)) }
{
    match row {
        Row::Pool(pool) => {
            if is_possible(&Key::Pool(0), row) {
                Some(*pool)
            } else {
                None
            }
        }
        _ => None,
    }
}

/// Takes the leases of writes, each in its turn.
pub(crate) fn take_leases(pools: &mut Vec<PoolRuns>, writes: &Writes)
    ensures taken { LeasesTaken writes.now pools.old.items pools.new.items }
    ensures len { vec_len pools.new ≡ vec_len pools.old }
    ensures capacity { vec_capacity pools.new ≡ vec_capacity pools.old }
{
    for place in 0..writes.len() {
        take_lease(pools, writes.get(place));
    }
}

/// Takes the lease of a write, if it's of a lease.
pub(crate) fn take_lease(pools: &mut Vec<PoolRuns>, write: &Write)
    ensures taken { LeasesTaken (write.now ∷ []) pools.old.items pools.new.items }
    ensures len { vec_len pools.new ≡ vec_len pools.old }
    ensures capacity { vec_capacity pools.new ≡ vec_capacity pools.old }
{
    let Some((address, expiry)) = lease_write(write) else {
        return;
    };
    set_all(pools, address, expiry);
}

// What a write makes of an address's expiry, or `None` where it's of no lease.
fn lease_write(write: &Write) -> Option<(Ip4, u64)>
    ensures { lease_write write.now ≡ option_map (λ w. (w.0.0, w.1)) result }
{
    match write {
        Write::Put(Key::Lease(address), row) => Some((*address, expiry_held(row))),
        Write::Drop(Key::Lease(address)) => Some((*address, 0)),
        _ => None,
    }
}

// When the lease of a row ends, or 0 where it's none.
fn expiry_held(row: &Row) -> u64
    ensures { result ≡ expiry_held row.now }
{
    match row {
        Row::Lease(lease) => lease.expiry.0,
        _ => 0,
    }
}

/// Takes the hubs of writes, each in its turn.
pub(crate) fn take_hubs(pools: &mut Vec<PoolRuns>, writes: &Writes)
    ensures taken { HubsTaken writes.now pools.old.items pools.new.items }
    ensures len { vec_len pools.new ≡ vec_len pools.old }
    ensures capacity { vec_capacity pools.new ≡ vec_capacity pools.old }
{
    for place in 0..writes.len() {
        take_hub(pools, writes.get(place));
    }
}

/// Takes the hub of a write, if it's of a pool's hub.
pub(crate) fn take_hub(pools: &mut Vec<PoolRuns>, write: &Write)
    ensures taken { HubsTaken (write.now ∷ []) pools.old.items pools.new.items }
    ensures len { vec_len pools.new ≡ vec_len pools.old }
    ensures capacity { vec_capacity pools.new ≡ vec_capacity pools.old }
{
    let Some((number, hub)) = hub_write(write) else {
        return;
    };
    rehub_all(pools, number, hub);
}

// What a write makes of the hub of a pool's number, or `None` where it's of no pool's hub.
fn hub_write(write: &Write) -> Option<(u32, u32)>
    ensures { result ≡ hub_write write.now }
{
    match write {
        Write::Put(Key::PoolHub(number), row) => Some((*number, hub_held(row))),
        Write::Drop(Key::PoolHub(number)) => Some((*number, 0)),
        _ => None,
    }
}

// The hub of a row, or 0 where it names none.
fn hub_held(row: &Row) -> u32
    ensures { result ≡ hub_held row.now }
{
    match row {
        Row::PoolHub(hub) => *hub,
        _ => 0,
    }
}

/// How many pools are put.
pub(crate) fn count_puts(writes: &Writes) -> usize
    ensures { result ≡ pool_puts writes.now }
{
    let mut puts = 0;
    for place in 0..writes.len() {
        if puts_pool(writes.get(place)) {
            puts += 1;
        }
    }
    puts
}

// Whether a write puts a pool.
fn puts_pool(write: &Write) -> bool
    ensures { puts_pool write.now ≡ cond result 1 0 }
{
    matches!(*write, Write::Put(Key::Pool(_), _))
}
