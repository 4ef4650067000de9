//! One pool, with the expiries of its addresses and its runs.

ghost use Rattle.std.specs.Prelude.{◌≡◌, ◌≤◌, ◌<◌, ◌==◌, ◌+◌, ◌^◌, ◌&&◌, ℕ, true, false, length};
ghost use Rattle.std.specs.Prelude.{IsTrue, MatchOption, get_or, if◌then◌else◌};
ghost use Rattle.off_account_rules.specs.Rows.{pool_fits};
ghost use Rattle.off_runs.specs.Runs.{in_pool, is_open};
ghost use Rattle.off_runs.specs.Held.{expiry_at, HasLeases, PoolHeld, NoneOpen, IsLeastOpen};
ghost use Rattle.off_runs.specs.Changes.{Wrote, Rehubbed, Began, Copied, HasPart};

use crate::runs::{Run, first_address, first_open, follow, lay_out};
use off_base::{Ip4, Moment, NoMemory};
use off_defs::Pool;
use std::alloc::Global;
use std::marker::Model;

// So many addresses may a pool have, and so many runs may they make.
const MOST_ADDRESSES: usize = 4_096;

const MOST_RUNS: usize = 2_048;

/// A pool by its number, with the expiry of each of its addresses by its place from the first, 0
/// where there's no lease. Contracts see these.
///
/// Beside them stand the runs that were laid out of them at a moment, and a time that no expiry
/// ahead comes before. Until then they are the runs of the free addresses: they follow each lease
/// that is written, or are stale.
#[derive(Drop)]
pub(crate) struct PoolRuns {
    number: u32,
    pool: Pool,
    hub: u32,
    expiries: Vec<u64>,
    laid_at: Moment,
    runs: Vec<Run>,
    soonest: u64,
    is_stale: bool,
}

impl Model for PoolRuns {
    ghost use Rattle.std.specs.Vec.{vec_capacity};
    ghost use Rattle.off_runs.specs.Held.{PoolHeld, KeepsRuns};
    ghost use Rattle.off_runs.specs.Codes.{pool_held_code};

    ghost Value = { PoolHeld };

    ghost coded = { pool_held_code };

    ghost view = { λ p. record {
      number = p.number;
      pool = p.pool;
      hub = p.hub;
      expiries = p.expiries.items;
    } };

    ghost invariant = { λ p. KeepsRuns p.pool p.expiries.items p.laid_at.0 p.runs.items p.soonest
        p.is_stale (vec_capacity p.runs) };
}

impl PoolRuns {
    pub(crate) fn number(&self) -> u32
        ensures { result ≡ self.now.number }
    {
        self.number
    }

    pub(crate) fn pool(&self) -> Pool
        ensures is { result ≡ self.now.pool }
        ensures fits { IsTrue (pool_fits result) }
    {
        self.pool
    }

    pub(crate) fn hub(&self) -> u32
        ensures { result ≡ self.now.hub }
    {
        self.hub
    }

    /// Whether the address is one of the pool's.
    pub(crate) fn has(&self, address: Ip4) -> bool
        ensures { result ≡ in_pool self.now.pool address.0 }
    {
        self.pool.first.0 <= address.0 && address.0 <= self.pool.last.0
    }

    /// Whether the address is one of the pool's, and its lease has ended by the moment.
    pub(crate) fn is_open(&self, address: Ip4, now: Moment) -> bool
        ensures { result ≡ is_open (expiry_at self.now) now.0 self.now.pool address.0 }
    {
        self.has(address) && self.expiries[(address.0 - self.pool.first.0) as usize] <= now.0
    }

    /// The least of its addresses that is free at a moment, or `None` where none is. It's at hand
    /// where the runs are those of the moment, and else it's sought.
    pub(crate) fn least(&self, now: Moment) -> Option<Ip4>
        ensures { let expiry = expiry_at self.now in let pool = self.now.pool in
            MatchOption result (NoneOpen expiry now.0 pool) (IsLeastOpen expiry now.0 pool) }
    {
        if !self.is_stale && self.laid_at.0 <= now.0 && now.0 < self.soonest {
            first_address(&self.runs)
        } else {
            first_open(now, &self.pool, &self.expiries)
        }
    }

    /// Comes to a moment: lays its runs out anew, where a lease has ended since or was written.
    pub(crate) fn pass(&mut self, now: Moment)
        ensures { self.new ≡ self.old }
    {
        if self.is_stale || self.soonest <= now.0 || now.0 < self.laid_at.0 {
            self.soonest = lay_out(now, &self.pool, &self.expiries, &mut self.runs);
            self.laid_at = now;
            self.is_stale = false;
        }
    }

    /// Keeps that the lease of an address ends then (0: it has none), where the address is one of
    /// the pool's. The runs follow at once where it was free, and where it stays taken or free.
    pub(crate) fn set(&mut self, address: Ip4, expiry: u64)
        ensures { Wrote address.0 expiry self.old self.new }
    {
        if self.has(address) {
            let place = (address.0 - self.pool.first.0) as usize;
            let before = self.expiries[place];
            let follows = follow(&mut self.runs, address, self.laid_at, before, expiry);
            self.expiries[place] = expiry;
            self.soonest = self.soonest.min(expiry);
            self.is_stale = self.is_stale || !follows;
        }
    }

    /// Has the hub from now on, where it's the pool of the number.
    pub(crate) fn rehub(&mut self, number: u32, hub: u32)
        ensures { Rehubbed number hub self.old self.new }
    {
        if self.number == number {
            self.hub = hub;
        }
    }

    /// Room for a pool: 2,048 runs and 4,096 expiries.
    pub(crate) fn new(alloc: Global) -> Result<PoolRuns, NoMemory> {
        let Ok(runs) = Vec::with_capacity(alloc, MOST_RUNS) else {
            return Err(NoMemory);
        };
        let Ok(expiries) = vec![in alloc; 0; MOST_ADDRESSES] else {
            return Err(NoMemory);
        };
        let one = Ip4(1);
        Ok(PoolRuns {
            number: 0,
            pool: Pool {
                first: one,
                last: one,
                prefix: 24,
                router: one,
                relay: one,
            },
            hub: 0,
            expiries,
            laid_at: Moment(0),
            runs,
            soonest: 0,
            is_stale: true,
        })
    }

    /// Becomes another pool, none of whose addresses has a lease.
    pub(crate) fn begin(&mut self, number: u32, pool: Pool, hub: u32)
        requires { IsTrue (pool_fits pool) }
        ensures { Began number pool hub self.new }
    {
        clear(&mut self.expiries);
        self.number = number;
        self.pool = pool;
        self.hub = hub;
        self.is_stale = true;
    }

    /// Takes the expiries of another pool, where both have the address.
    pub(crate) fn copy(&mut self, other: &PoolRuns)
        ensures { Copied other.now self.old self.new }
    {
        let low = self.pool.first.0.max(other.pool.first.0) as u64;
        let high = self.pool.last.0.min(other.pool.last.0) as u64;
        let first = self.pool.first.0 as u64;
        let from = other.pool.first.0 as u64;
        if low <= high {
            copy_part(&mut self.expiries, first, &other.expiries, from, low, high);
            self.is_stale = true;
        }
    }
}

// No expiry is left.
fn clear(expiries: &mut Vec<u64>)
    ensures none { (k : ℕ) → get_or expiries.new.items k 0 ≡ 0 }
    ensures len { length expiries.new.items ≡ length expiries.old.items }
{
    for expiry in expiries.iter_mut() {
        *expiry = 0;
    }
}

// Copies the expiries of the addresses from `low` to `high` between two lists, each of which begins
// at an address of its own.
fn copy_part(to: &mut Vec<u64>, first: u64, from: &Vec<u64>, from_first: u64, low: u64, high: u64)
    requires order { low ≤ high }
    requires ours { first ≤ low }
    requires theirs { from_first ≤ low }
    requires small { high < 2 ^ 32 }
    requires within { high < first + length to.old.items }
    requires within_theirs { high < from_first + length from.now.items }
    ensures part { HasPart low high from_first from.now.items first to.old.items to.new.items }
    ensures len { length to.new.items ≡ length to.old.items }
{
    for at in low..high + 1 {
        to[(at - first) as usize] = from[(at - from_first) as usize];
    }
}
