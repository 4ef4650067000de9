//! All pools for devices with their runs, at a moment.

ghost use Rattle.std.specs.Prelude.{◌≡◌, ◌≤◌, ◌==◌, ℕ, List, Option, Some, MatchOption};
ghost use Rattle.std.specs.Prelude.{IfOk, IfSome, IsTrue};
ghost use Rattle.std.specs.List.{find, list_any};
ghost use Rattle.std.specs.Option.{option_map};
ghost use Rattle.off_defs.specs.declared.writes.Write.{Write};
ghost use Rattle.off_defs.specs.declared.tables.Pool.{Pool};
ghost use Rattle.off_defs.specs.State.{Tables};
ghost use Rattle.off_defs.specs.Tables.{write_all};
ghost use Rattle.off_account_rules.specs.Good.{Opens};
ghost use Rattle.off_account_rules.specs.Rows.{pool_fits};
ghost use Rattle.off_outside.specs.KeeperCalls.{Looks};
ghost use Rattle.off_runs.specs.Runs.{in_pool, is_open};
ghost use Rattle.off_runs.specs.Leases.{pool_puts};
ghost use Rattle.off_runs.specs.Held.{Ground, KeepsPools, StandsFor, NoneOpen, IsLeastOpen};
ghost use Rattle.off_runs.specs.Reading.{Walks};
ghost use Rattle.off_device_runs.specs.Ground.{device_ground, taken_all};

use crate::reading::read_rows;
use crate::taking::taken_all;
use off_base::{Ip4, Moment, NoMemory};
use off_defs::{Pool, Writes};
use off_outside::{KeepErr, Keeper};
use off_runs::FreeRuns;
use std::alloc::Global;
use std::marker::Model;

/// The pools for devices, each with the runs of its free addresses. Contracts see the moment, what
/// is kept of each pool, and for how many more pools there is room.
#[derive(Drop)]
pub struct DeviceRuns {
    runs: FreeRuns,
}

impl Model for DeviceRuns {
    ghost use Rattle.off_runs.specs.Held.{RunsHeld};
    ghost use Rattle.off_runs.specs.Codes.{runs_code};

    ghost Value = { RunsHeld };

    ghost coded = { runs_code };

    ghost view = { λ r. r.runs };
}

impl DeviceRuns {
    /// The pools for devices of a keeper's tables, each with the leases of its addresses, at moment
    /// 0. A row that no such pool or lease may have is passed over.
    ///
    /// It walks over the pools and over the leases, and commits nothing. After an error there is
    /// nothing; `Failed` comes only where the keeper counted a fault.
    pub fn of<K: Keeper>(alloc: Global, keeper: &mut K) -> Result<DeviceRuns, KeepErr>
        ensures told { Looks result (K.seen keeper.old) (K.seen keeper.new)
            (λ runs t. StandsFor runs (device_ground t) 0) }
        ensures at { IfOk result (λ runs. runs.at ≡ 0) }
        ensures walks { Walks 2 (K.seen keeper.old) (K.seen keeper.new) }
    {
        let taken = read_rows(alloc, keeper)?;
        let mut runs = FreeRuns::new(alloc);
        runs.ready(&taken)?;
        runs.apply(&taken);
        Ok(DeviceRuns { runs })
    }

    /// What is taken for writes, which is what `apply` takes once they are done. It takes room for
    /// the pools that are put, and what is kept stays.
    pub fn ready(&mut self, alloc: Global, writes: &Writes) -> Result<Writes, NoMemory>
        ensures taken { IfOk result (λ taken. taken ≡ taken_all writes.now) }
        ensures room { IfOk result (λ taken. pool_puts taken ≤ self.new.spare) }
        ensures at { self.new.at ≡ self.old.at }
        ensures pools { self.new.pools ≡ self.old.pools }
    {
        let taken = taken_all(alloc, writes)?;
        self.runs.ready(&taken)?;
        Ok(taken)
    }

    /// Takes writes that were done, as `ready` gave them. There is room in hand for each pool that
    /// is put.
    pub fn apply(&mut self, taken: &Writes)
        requires { pool_puts taken.now ≤ self.old.spare }
        ensures tables { (t : Tables) (writes : List Write) → taken.now ≡ taken_all writes
            → Opens t → KeepsPools self.old.pools (device_ground t)
            → KeepsPools self.new.pools (device_ground (write_all t writes)) }
        ensures at { self.new.at ≡ self.old.at }
    {
        self.runs.apply(taken);
    }

    /// Comes to a moment: the leases that have ended by then are free.
    pub fn pass(&mut self, now: Moment)
        ensures { self.new ≡ record self.old { at = now.0 } }
    {
        self.runs.pass(now);
    }

    /// The pool behind a relay, or `None` where there is none.
    pub fn pool_behind(&self, relay: Ip4) -> Option<Pool>
        ensures is { (g : Ground) → KeepsPools self.now.pools g
            → result ≡ option_map (λ e. e.1) (find (λ e. e.1.relay.0 == relay.0) g.pools) }
        ensures fits { IfSome result (λ pool. IsTrue (pool_fits pool)) }
    {
        self.runs.pool_behind(relay)
    }

    /// The pool that has the address, or `None` where none has it.
    pub fn pool_around(&self, address: Ip4) -> Option<Pool>
        ensures is { (g : Ground) → KeepsPools self.now.pools g
            → result ≡ option_map (λ e. e.1) (find (λ e. in_pool e.1 address.0) g.pools) }
        ensures fits { IfSome result (λ pool. IsTrue (pool_fits pool)) }
    {
        self.runs.pool_around(address)
    }

    /// Whether the address is one of a pool's, and free.
    pub fn is_free(&self, address: Ip4) -> bool
        ensures { (g : Ground) → KeepsPools self.now.pools g
            → result ≡ list_any (λ e. is_open g.expiry self.now.at e.1 address.0) g.pools }
    {
        self.runs.is_free(address)
    }

    /// The least free address of the pool behind a relay, or `None` where it has none, or where
    /// there's no such pool.
    pub fn least_behind(&self, relay: Ip4) -> Option<Ip4>
        ensures { (g : Ground) (pool : Pool) → KeepsPools self.now.pools g
            → option_map (λ e. e.1) (find (λ e. e.1.relay.0 == relay.0) g.pools) ≡ Some pool
            → MatchOption result (NoneOpen g.expiry self.now.at pool)
            (IsLeastOpen g.expiry self.now.at pool) }
    {
        self.runs.least_behind(relay)
    }
}
