//! All pools with their runs, at a moment.

ghost use Rattle.std.specs.Prelude.{◌≡◌, ◌≤◌, ◌+◌, ◌==◌, ℕ, Option, Some, MatchOption, OnOk};
ghost use Rattle.std.specs.Prelude.{OnErr, IfOk, IfSome, IsTrue, vec_len, slice_get, []};
ghost use Rattle.std.specs.Vec.{vec_capacity};
ghost use Rattle.std.specs.List.{find, list_any};
ghost use Rattle.std.specs.Option.{option_map};
ghost use Rattle.off_defs.specs.declared.tables.Pool.{Pool};
ghost use Rattle.off_runs.specs.Runs.{in_pool, is_open};
ghost use Rattle.off_runs.specs.Leases.{Moves, ground, pool_puts};
ghost use Rattle.off_defs.specs.State.{Tables};
ghost use Rattle.off_defs.specs.Tables.{write_all};
ghost use Rattle.off_account_rules.specs.Good.{Opens};
ghost use Rattle.off_account_rules.specs.Rows.{pool_fits};
ghost use Rattle.off_runs.specs.Held.{Ground, KeepsPools, StandsFor, NoneOpen, IsLeastOpen};
ghost use Rattle.off_runs.specs.Held.{IsLeastOf};
ghost use Rattle.off_runs.specs.Reading.{bare_ground, Walks};
ghost use Rattle.off_outside.specs.KeeperCalls.{Looks};

use crate::leases::{count_puts, take_hubs, take_leases, take_pools};
use crate::pool_runs::PoolRuns;
use crate::pools::{pass_all, pass_since, place_behind, place_numbered, place_with};
use crate::reading::{read_pools, take_kept_hubs, take_kept_leases};
use crate::shelf::{push_aside, put_back};
use off_base::{Ip4, Moment, NoMemory};
use off_defs::{Pool, Writes};
use off_outside::{KeepErr, Keeper};
use std::alloc::Global;
use std::marker::Model;

/// The pools, each with the runs of its free addresses. Contracts see the moment, what is kept of
/// each pool, and for how many more pools there is room.
#[derive(Drop)]
pub struct FreeRuns {
    moment: Moment,
    pools: Vec<PoolRuns>,
    retired: Vec<PoolRuns>,
    spare: Vec<PoolRuns>,
}

impl Model for FreeRuns {
    ghost use Rattle.std.specs.Prelude.{vec_len};
    ghost use Rattle.std.specs.Vec.{vec_capacity};
    ghost use Rattle.off_runs.specs.Held.{RunsHeld, HasRoom};
    ghost use Rattle.off_runs.specs.Codes.{runs_code};

    ghost Value = { RunsHeld };

    ghost coded = { runs_code };

    ghost view = { λ r.
        record { at = r.moment.0; pools = r.pools.items; spare = vec_len r.spare } };

    // all pools fit into each of the lists, and between two calls none is aside
    ghost invariant = { λ r. HasRoom
        (vec_len r.pools) (vec_len r.retired) (vec_len r.spare)
        (vec_capacity r.pools) (vec_capacity r.retired) (vec_capacity r.spare) };
}

impl FreeRuns {
    /// No pools, at moment 0. It takes no memory.
    pub fn new(alloc: Global) -> FreeRuns
        ensures at { result.at ≡ 0 }
        ensures pools { result.pools ≡ [] }
        ensures spare { result.spare ≡ 0 }
    {
        FreeRuns {
            moment: Moment(0),
            pools: Vec::new(alloc),
            retired: Vec::new(alloc),
            spare: Vec::new(alloc),
        }
    }

    /// The pools of a keeper's tables, each with its hub and with the leases of its addresses, at
    /// moment 0. A row that no pool, lease or pool's hub may have is passed over.
    ///
    /// It walks over the pools, over the leases and over the pools' hubs, and commits nothing.
    /// After an error there is nothing; `Failed` comes only where the keeper counted a fault.
    pub fn of<K: Keeper>(alloc: Global, keeper: &mut K) -> Result<FreeRuns, KeepErr>
        ensures told { Looks result (K.seen keeper.old) (K.seen keeper.new)
            (λ runs t. StandsFor runs (ground t) 0) }
        ensures at { IfOk result (λ runs. runs.at ≡ 0) }
        ensures walks { Walks 3 (K.seen keeper.old) (K.seen keeper.new) }
    {
        let pools = read_pools(alloc, keeper)?;
        let mut runs = FreeRuns::new(alloc);
        runs.ready(&pools)?;
        runs.apply(&pools);
        runs.take_rows_of(alloc, keeper)?;
        Ok(runs)
    }

    // Takes the leases and the hubs of tables whose pools are here.
    fn take_rows_of<K: Keeper>(&mut self, alloc: Global, keeper: &mut K) -> Result<(), KeepErr>
        ensures told { Looks result (K.seen keeper.old) (K.seen keeper.new)
            (λ _ t. KeepsPools self.old.pools (bare_ground t)
            → KeepsPools self.new.pools (ground t)) }
        ensures at { self.new.at ≡ self.old.at }
        ensures walks { Walks 2 (K.seen keeper.old) (K.seen keeper.new) }
    {
        take_kept_leases(alloc, keeper, &mut self.pools)?;
        take_kept_hubs(alloc, keeper, &mut self.pools)?;
        let moment = self.moment;
        pass_all(&mut self.pools, moment);
        Ok(())
    }

    /// Takes room for the pools that writes put. What is kept stays.
    pub fn ready(&mut self, writes: &Writes) -> Result<(), NoMemory>
        ensures room { OnOk result (pool_puts writes.now ≤ self.new.spare) }
        ensures at { self.new.at ≡ self.old.at }
        ensures pools { self.new.pools ≡ self.old.pools }
    {
        let wanted = count_puts(writes);
        for _held in self.spare.len()..wanted {
            self.add_spare()?;
        }
        Ok(())
    }

    // Takes room for one more pool.
    fn add_spare(&mut self) -> Result<(), NoMemory>
        ensures spare { OnOk result (self.new.spare ≡ self.old.spare + 1) }
        ensures more { self.old.spare ≤ self.new.spare }
        ensures at { self.new.at ≡ self.old.at }
        ensures pools { self.new.pools ≡ self.old.pools }
    {
        let alloc = *self.pools.allocator();
        add_room(alloc, &mut self.pools, &mut self.retired, &mut self.spare)
    }

    /// Comes to a moment: the leases that have ended by then are free.
    pub fn pass(&mut self, now: Moment)
        ensures { self.new ≡ record self.old { at = now.0 } }
    {
        let last = self.moment;
        pass_since(&mut self.pools, last, now);
        self.moment = now;
    }

    /// Takes writes that were done: pools first, then leases, and then pools' hubs. There is room
    /// in hand for each pool that is put.
    pub fn apply(&mut self, writes: &Writes)
        requires { pool_puts writes.now ≤ self.old.spare }
        ensures keeps { (g : Ground) (h : Ground) (by : ℕ → Option Pool) → Moves writes.now by g h
            → KeepsPools self.old.pools g → KeepsPools self.new.pools h }
        ensures tables { (t : Tables) → Opens t → KeepsPools self.old.pools (ground t)
            → KeepsPools self.new.pools (ground (write_all t writes.now)) }
        ensures at { self.new.at ≡ self.old.at }
    {
        take_pools(&mut self.pools, &mut self.retired, &mut self.spare, writes);
        take_leases(&mut self.pools, writes);
        take_hubs(&mut self.pools, writes);
        let now = self.moment;
        pass_all(&mut self.pools, now);
        put_back(&mut self.retired, &mut self.spare);
    }

    /// The number of the pool behind a relay, or `None` where there is none.
    pub fn by_relay(&self, relay: Ip4) -> Option<u32>
        ensures { (g : Ground) → KeepsPools self.now.pools g
            → result ≡ option_map (λ e. e.0) (find (λ e. e.1.relay.0 == relay.0) g.pools) }
    {
        let place = place_behind(&self.pools, relay);
        match self.pools.get(place) {
            Some(pool) => Some(pool.number()),
            None => None,
        }
    }

    /// The pool behind a relay, or `None` where there is none.
    pub fn pool_behind(&self, relay: Ip4) -> Option<Pool>
        ensures is { (g : Ground) → KeepsPools self.now.pools g
            → result ≡ option_map (λ e. e.1) (find (λ e. e.1.relay.0 == relay.0) g.pools) }
        ensures fits { IfSome result (λ pool. IsTrue (pool_fits pool)) }
    {
        let place = place_behind(&self.pools, relay);
        match self.pools.get(place) {
            Some(pool) => Some(pool.pool()),
            None => None,
        }
    }

    /// The number of the pool that has the address, or `None` where none has it.
    pub fn pool_of(&self, address: Ip4) -> Option<u32>
        ensures { (g : Ground) → KeepsPools self.now.pools g
            → result ≡ option_map (λ e. e.0) (find (λ e. in_pool e.1 address.0) g.pools) }
    {
        let place = place_with(&self.pools, address);
        match self.pools.get(place) {
            Some(pool) => Some(pool.number()),
            None => None,
        }
    }

    /// The pool that has the address, or `None` where none has it.
    pub fn pool_around(&self, address: Ip4) -> Option<Pool>
        ensures is { (g : Ground) → KeepsPools self.now.pools g
            → result ≡ option_map (λ e. e.1) (find (λ e. in_pool e.1 address.0) g.pools) }
        ensures fits { IfSome result (λ pool. IsTrue (pool_fits pool)) }
    {
        let place = place_with(&self.pools, address);
        match self.pools.get(place) {
            Some(pool) => Some(pool.pool()),
            None => None,
        }
    }

    /// The hub of a pool, or `None` where there's no such pool.
    pub fn hub_of(&self, number: u32) -> Option<u32>
        ensures { (g : Ground) → KeepsPools self.now.pools g
            → result ≡ option_map (λ e. g.hub e.0) (find (λ e. e.0 == number) g.pools) }
    {
        let place = place_numbered(&self.pools, number);
        match self.pools.get(place) {
            Some(pool) => Some(pool.hub()),
            None => None,
        }
    }

    /// The hub of the pool behind a relay, or `None` where there's no such pool.
    pub fn hub_behind(&self, relay: Ip4) -> Option<u32>
        ensures { (g : Ground) → KeepsPools self.now.pools g
            → result ≡ option_map (λ e. g.hub e.0)
            (find (λ e. e.1.relay.0 == relay.0) g.pools) }
    {
        let place = place_behind(&self.pools, relay);
        match self.pools.get(place) {
            Some(pool) => Some(pool.hub()),
            None => None,
        }
    }

    /// The hub of the pool that has the address, or `None` where none has it.
    pub fn hub_around(&self, address: Ip4) -> Option<u32>
        ensures { (g : Ground) → KeepsPools self.now.pools g
            → result ≡ option_map (λ e. g.hub e.0) (find (λ e. in_pool e.1 address.0) g.pools) }
    {
        let place = place_with(&self.pools, address);
        match self.pools.get(place) {
            Some(pool) => Some(pool.hub()),
            None => None,
        }
    }

    /// Whether the address is one of a pool's, and free.
    pub fn is_free(&self, address: Ip4) -> bool
        ensures { (g : Ground) → KeepsPools self.now.pools g
            → result ≡ list_any (λ e. is_open g.expiry self.now.at e.1 address.0) g.pools }
    {
        let place = place_with(&self.pools, address);
        match self.pools.get(place) {
            Some(pool) => pool.is_open(address, self.moment),
            None => false,
        }
    }

    /// The least free address of a pool, or `None` where it has none, or there's no such pool.
    pub fn least(&self, number: u32) -> Option<Ip4>
        ensures { (g : Ground) (pool : Pool) → KeepsPools self.now.pools g
            → option_map (λ e. e.1) (find (λ e. e.0 == number) g.pools) ≡ Some pool
            → MatchOption result (NoneOpen g.expiry self.now.at pool)
            (IsLeastOpen g.expiry self.now.at pool) }
    {
        self.least_at(place_numbered(&self.pools, number))
    }

    /// The least free address of the pool behind a relay, or `None` where it has none, or there's
    /// no such pool.
    pub fn least_behind(&self, relay: Ip4) -> Option<Ip4>
        ensures { (g : Ground) (pool : Pool) → KeepsPools self.now.pools g
            → option_map (λ e. e.1) (find (λ e. e.1.relay.0 == relay.0) g.pools) ≡ Some pool
            → MatchOption result (NoneOpen g.expiry self.now.at pool)
            (IsLeastOpen g.expiry self.now.at pool) }
    {
        self.least_at(place_behind(&self.pools, relay))
    }

    // The least free address of the pool at a place, or `None` where none stands there.
    fn least_at(&self, place: usize) -> Option<Ip4>
        ensures { IsLeastOf (slice_get self.now.pools place) self.now.at result }
    {
        match self.pools.get(place) {
            Some(pool) => pool.least(self.moment),
            None => None,
        }
    }
}

// One more spare, and room for it in each of the lists.
fn add_room(
    alloc: Global,
    pools: &mut Vec<PoolRuns>,
    aside: &mut Vec<PoolRuns>,
    spare: &mut Vec<PoolRuns>,
) -> Result<(), NoMemory>
    ensures spare { OnOk result (vec_len spare.new ≡ vec_len spare.old + 1) }
    ensures err { OnErr result (vec_len spare.new ≡ vec_len spare.old) }
    ensures pools { pools.new.items ≡ pools.old.items }
    ensures len { vec_len pools.new ≡ vec_len pools.old }
    ensures len_aside { vec_len aside.new ≡ vec_len aside.old }
    ensures room { OnOk result
        (vec_len pools.old + vec_len spare.old + 1 ≤ vec_capacity pools.new) }
    ensures room_aside { OnOk result
        (vec_len pools.old + vec_len spare.old + 1 ≤ vec_capacity aside.new) }
    ensures room_spare { OnOk result
        (vec_len pools.old + vec_len spare.old + 1 ≤ vec_capacity spare.new) }
    ensures kept { vec_capacity pools.old ≤ vec_capacity pools.new }
    ensures kept_aside { vec_capacity aside.old ≤ vec_capacity aside.new }
    ensures kept_spare { vec_capacity spare.old ≤ vec_capacity spare.new }
{
    let more = spare.len() + 1;
    let all = pools.len() + more;
    let has_room = pools.reserve(more).is_ok()
        && aside.reserve(all).is_ok()
        && spare.reserve(pools.len() + 1).is_ok();
    if !has_room {
        return Err(NoMemory);
    }
    let fresh = PoolRuns::new(alloc)?;
    push_aside(spare, fresh);
    Ok(())
}
