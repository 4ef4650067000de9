//! A store all of whose rows are in memory.

ghost use Rattle.std.specs.Prelude.{◌≡◌, IfErr};
ghost use Rattle.std.specs.Option.{option_map};
ghost use Rattle.off_defs.specs.Tables.{row_at, next_entry};
ghost use Rattle.off_defs.specs.Told.{one_exact};
ghost use Rattle.off_outside.specs.KeeperCalls.{Looks, Commits, WasCounted};
ghost use Rattle.off_outside.specs.declared.keeper.KeepErr.TheVariants.{Memory};
ghost use Rattle.off_cached.specs.Cached.{whole_seen};

use off_defs::{Key, Row, Writes};
use off_keepmem::MemKeeper;
use off_outside::{Failed, KeepErr, Keeper, one_more};
use std::alloc::Global;

/// A store and all of its rows. The tables are those in memory; the store has them for the next
/// opening.
#[derive(Drop)]
pub struct Whole<K> {
    pub(crate) store: K,
    pub(crate) rows: MemKeeper,
    pub(crate) calls: u64,
    pub(crate) commits: u64,
}

impl<K: Keeper> Keeper for Whole<K> {
    ghost seen = { λ s. whole_seen (K.seen s.store) s.rows.tables s.calls s.commits };

    fn get(&mut self, alloc: Global, key: &Key) -> Result<Option<Row>, KeepErr>
        ensures told { Looks result (whole_seen (K.seen self.old.store) self.old.rows.tables
            self.old.calls self.old.commits)
            (whole_seen (K.seen self.new.store) self.new.rows.tables self.new.calls
            self.new.commits) (λ row tables. row ≡ row_at tables key.now) }
        ensures counted { WasCounted (whole_seen (K.seen self.old.store) self.old.rows.tables
            self.old.calls self.old.commits)
            (whole_seen (K.seen self.new.store) self.new.rows.tables self.new.calls
            self.new.commits) }
        ensures unasked { self.new.store ≡ self.old.store }
        ensures memory { IfErr result (λ err. err ≡ Memory) }
    {
        self.calls = one_more(self.calls);
        Ok(self.rows.row(alloc, *key)?)
    }

    fn next(&mut self, alloc: Global, after: Option<&Key>) -> Result<Option<(Key, Row)>, KeepErr>
        ensures told { Looks result (whole_seen (K.seen self.old.store) self.old.rows.tables
            self.old.calls self.old.commits)
            (whole_seen (K.seen self.new.store) self.new.rows.tables self.new.calls
            self.new.commits)
            (λ entry tables. entry ≡ next_entry (option_map (λ key. key.now) after.entry) tables) }
        ensures counted { WasCounted (whole_seen (K.seen self.old.store) self.old.rows.tables
            self.old.calls self.old.commits)
            (whole_seen (K.seen self.new.store) self.new.rows.tables self.new.calls
            self.new.commits) }
        ensures unasked { self.new.store ≡ self.old.store }
        ensures memory { IfErr result (λ err. err ≡ Memory) }
    {
        self.calls = one_more(self.calls);
        Ok(self.rows.entry_behind(alloc, after.copied())?)
    }

    /// Takes the memory that the writes want, has the store do them, and then does them in memory,
    /// which can't fail any more.
    fn commit(&mut self, alloc: Global, writes: &Writes) -> Result<(), KeepErr>
        ensures told { Commits result (whole_seen (K.seen self.old.store) self.old.rows.tables
            self.old.calls self.old.commits)
            (whole_seen (K.seen self.new.store) self.new.rows.tables self.new.calls
            self.new.commits) writes.now }
        ensures counted { WasCounted (whole_seen (K.seen self.old.store) self.old.rows.tables
            self.old.calls self.old.commits)
            (whole_seen (K.seen self.new.store) self.new.rows.tables self.new.calls
            self.new.commits) }

        // What is answered is what the store did, too.
        ensures stored { Commits result (K.seen self.old.store) (K.seen self.new.store)
            writes.now }
    {
        self.calls = one_more(self.calls);
        let plan = self.rows.plan(alloc, writes)?;
        self.store.commit(alloc, writes)?;
        self.rows.apply(plan);
        self.commits = one_more(self.commits);
        Ok(())
    }

    #[tactic(auto, using(off_outside::proofs::KeeperLemmas::stages_commit))]
    fn stage(&mut self, alloc: Global, writes: &Writes) -> Result<(), KeepErr> {
        self.commit(alloc, writes)
    }

    #[tactic(auto, using(off_outside::proofs::KeeperLemmas::secured_none))]
    fn secure(&mut self) -> Result<(), Failed> {
        Ok(())
    }

    fn waits(&self) -> bool {
        false
    }

    fn moment(&self) -> u64 {
        0
    }

    ghost one_tables = { λ s up. one_exact s.rows.tables };

    ghost rests = { λ s tables told opened might. absurd might };
}
