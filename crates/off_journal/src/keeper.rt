ghost use Rattle.std.specs.Prelude.{◌≡◌, ℕ, ◌+◌, ◌<◌, ◌≤◌, [], ◌∷◌, MatchResult, OnOk, OnErr};
ghost use Rattle.std.specs.Prelude.{IfErr};
ghost use Rattle.std.specs.Option.{option_map};
ghost use Rattle.off_defs.specs.Counts.{Grew};
ghost use Rattle.off_defs.specs.Tables.{row_at, next_entry};
ghost use Rattle.off_outside.specs.KeeperCalls.{Looks, Commits, WasCounted};
ghost use Rattle.off_outside.specs.declared.keeper.KeepErr.TheVariants.{Memory};
ghost use Rattle.off_journal.specs.Keeping.{journal_seen, HasSettled, NotSettled, CanCommit};
ghost use Rattle.off_journal.specs.Keeping.{OwnCommitted, FailsByCause};
ghost use Rattle.off_journal.specs.KeepingLaws.{journal_rests, one_journal_tells};
ghost use Rattle.off_journal.specs.declared.keeper.Last.TheVariants.{Closed};

use crate::spelling::{push_zeros, record_of};
use off_defs::{Key, Row, Writes};
use off_disk::{Appended, Disk, append, close};
use off_keepmem::{MemKeeper, Plan};
use off_outside::{Failed, KeepErr, Keeper, one_more};
use std::alloc::Global;

/// The last gate of a journal.
#[derive(Drop)]
pub enum Last {
    /// It isn't open, whatever a crash leaves.
    Closed,
    /// It may be open after a crash, to the record of writes that were refused.
    Doubtful(Plan),
}

/// The counters of a keeper: the faults of its own, its calls, and the commits that were done.
#[derive(Clone, Copy, PartialEq, Eq)]
pub struct Counts {
    pub(crate) own: u64,
    pub(crate) calls: u64,
    pub(crate) commits: u64,
}

impl Counts {
    /// Nothing was counted yet.
    pub(crate) fn new() -> Counts
        ensures { result ≡ record { own = 0; calls = 0; commits = 0 } }
    {
        Counts {
            own: 0,
            calls: 0,
            commits: 0,
        }
    }
}

/// A keeper whose commits stand in a file, one record each, and whose tables are in memory.
#[derive(Drop)]
pub struct JournalKeeper<D: Disk> {
    pub(crate) disk: D,
    pub(crate) gate: u64,
    pub(crate) rows: MemKeeper,
    pub(crate) last: Last,
    pub(crate) counts: Counts,
    // How many zeros are written behind a record that doesn't fit into the disk.
    pub(crate) room: usize,
    ghost within: { gate < (D.seen disk).size },
}

impl<D: Disk> JournalKeeper<D> {
    /// The disk.
    pub fn disk(&self) -> &D
        ensures { result.now ≡ self.now.disk }
    {
        &self.disk
    }

    /// The disk, as it is.
    pub fn into_disk(self) -> D
        ensures { result ≡ self.disk }
    {
        self.disk
    }

    // How many zeros are written behind a record of so many bytes.
    fn room_behind(&self, bytes: usize) -> usize
        ensures fits { self.now.gate + bytes < (D.seen self.now.disk).size → result ≡ 0 }
        ensures passes { (D.seen self.now.disk).size ≤ self.now.gate + bytes
            → result ≡ self.now.room }
    {
        if (bytes as u64) < self.disk.length() - self.gate {
            return 0;
        }
        self.room
    }

    /// Closes a gate that is in doubt.
    pub fn settle(&mut self) -> Result<(), Failed>
        ensures settled { MatchResult result
            (λ _. HasSettled (journal_seen (D.seen self.old.disk) self.old.rows.tables self.old.gate
            self.old.last self.old.counts)
            (journal_seen (D.seen self.new.disk) self.new.rows.tables self.new.gate
            self.new.last self.new.counts))
            (λ _. NotSettled (journal_seen (D.seen self.old.disk) self.old.rows.tables
            self.old.gate self.old.last self.old.counts)
            (journal_seen (D.seen self.new.disk) self.new.rows.tables self.new.gate
            self.new.last self.new.counts)) }
        ensures closed { OnOk result (self.new.last ≡ Closed) }
        ensures doubtful { OnErr result (self.new.last ≡ self.old.last) }
        ensures cause { OnErr result (Grew 1 (D.seen self.old.disk).faults
            (D.seen self.new.disk).faults) }
        ensures idle { self.old.last ≡ Closed → self.new ≡ self.old }
        ensures rows { self.new.rows ≡ self.old.rows }
        ensures gate { self.new.gate ≡ self.old.gate }
        ensures counts { self.new.counts ≡ self.old.counts }
    {
        match &self.last {
            Last::Closed => Ok(()),
            Last::Doubtful(_) => {
                let Ok(()) = close(&mut self.disk, self.gate) else {
                    return Err(Failed);
                };
                self.last = Last::Closed;
                Ok(())
            }
        }
    }
}

impl<D: Disk> Keeper for JournalKeeper<D> {
    ghost seen = { λ s. journal_seen (D.seen s.disk) s.rows.tables s.gate s.last s.counts };

    fn get(&mut self, alloc: Global, key: &Key) -> Result<Option<Row>, KeepErr>
        ensures told { Looks result (journal_seen (D.seen self.old.disk) self.old.rows.tables
            self.old.gate self.old.last self.old.counts)
            (journal_seen (D.seen self.new.disk) self.new.rows.tables self.new.gate
            self.new.last self.new.counts) (λ row tables. row ≡ row_at tables key.now) }
        ensures counted { WasCounted (journal_seen (D.seen self.old.disk) self.old.rows.tables
            self.old.gate self.old.last self.old.counts)
            (journal_seen (D.seen self.new.disk) self.new.rows.tables self.new.gate
            self.new.last self.new.counts) }
        ensures memory { IfErr result (λ err. err ≡ Memory) }
    {
        self.counts.calls = one_more(self.counts.calls);
        Ok(self.rows.row(alloc, *key)?)
    }

    fn next(&mut self, alloc: Global, after: Option<&Key>) -> Result<Option<(Key, Row)>, KeepErr>
        ensures told { Looks result (journal_seen (D.seen self.old.disk) self.old.rows.tables
            self.old.gate self.old.last self.old.counts)
            (journal_seen (D.seen self.new.disk) self.new.rows.tables self.new.gate
            self.new.last self.new.counts)
            (λ entry tables. entry ≡ next_entry (option_map (λ key. key.now) after.entry) tables) }
        ensures counted { WasCounted (journal_seen (D.seen self.old.disk) self.old.rows.tables
            self.old.gate self.old.last self.old.counts)
            (journal_seen (D.seen self.new.disk) self.new.rows.tables self.new.gate
            self.new.last self.new.counts) }
        ensures memory { IfErr result (λ err. err ≡ Memory) }
    {
        self.counts.calls = one_more(self.counts.calls);
        Ok(self.rows.entry_behind(alloc, after.copied())?)
    }

    fn commit(&mut self, alloc: Global, writes: &Writes) -> Result<(), KeepErr>
        ensures told { Commits result (journal_seen (D.seen self.old.disk) self.old.rows.tables
            self.old.gate self.old.last self.old.counts)
            (journal_seen (D.seen self.new.disk) self.new.rows.tables self.new.gate
            self.new.last self.new.counts) writes.now }
        ensures counted { WasCounted (journal_seen (D.seen self.old.disk) self.old.rows.tables
            self.old.gate self.old.last self.old.counts)
            (journal_seen (D.seen self.new.disk) self.new.rows.tables self.new.gate
            self.new.last self.new.counts) }

        // Its own count rises exactly where it refuses writes that can't be committed, and then
        // nothing is asked of the disk.
        ensures own { OwnCommitted result writes.now self.old.counts.own self.new.counts.own }
        ensures refused { (¬ CanCommit writes.now) → self.new.disk ≡ self.old.disk }
        ensures cause { FailsByCause result (D.seen self.old.disk) (D.seen self.new.disk)
            self.old.counts.own self.new.counts.own }
    {
        self.counts.calls = one_more(self.counts.calls);
        let mut record = record_of(alloc, writes, &mut self.counts.own)?;
        let length = record.len();
        let room = self.room_behind(length);
        push_zeros(alloc, &mut record, room)?;
        let plan = self.rows.plan(alloc, writes)?;
        let Ok(()) = self.settle() else {
            return Err(KeepErr::Failed);
        };
        match append(&mut self.disk, self.gate, record.as_slice()) {
            Appended::Opened => {
                self.gate += length as u64;
                self.rows.apply(plan);
                self.counts.commits = one_more(self.counts.commits);
                Ok(())
            }
            Appended::Closed => Err(KeepErr::Failed),
            Appended::Doubtful => {
                self.last = Last::Doubtful(plan);
                Err(KeepErr::Failed)
            }
        }
    }

    #[tactic(auto, using(off_outside::proofs::KeeperLemmas::stages_commit))]
    fn stage(&mut self, alloc: Global, writes: &Writes) -> Result<(), KeepErr> {
        self.commit(alloc, writes)
    }

    #[tactic(auto, using(off_outside::proofs::KeeperLemmas::secured_none))]
    fn secure(&mut self) -> Result<(), Failed> {
        Ok(())
    }

    fn waits(&self) -> bool {
        false
    }

    fn moment(&self) -> u64 {
        self.disk.moment()
    }

    ghost one_tables = { λ s up. one_journal_tells (D.seen s.disk) s.rows.tables s.gate s.last
        s.counts };

    ghost rests = { λ s. journal_rests (D.seen s.disk) s.rows.tables s.gate s.last s.counts };
}
