ghost use Rattle.std.specs.Prelude.{◌≡◌, MatchResult};
ghost use Rattle.std.specs.Option.{option_map};
ghost use Rattle.off_defs.specs.Tables.{row_at, next_entry};
ghost use Rattle.off_outside.specs.KeeperCalls.{Looks, Commits, WasCounted};
ghost use Rattle.off_cells.specs.CellsSeen.{CellMap};
ghost use Rattle.off_cells.specs.CellCalls.{OneCellCall};
ghost use Rattle.off_keepsql.specs.SqlSeen.{over, SqlTells};
ghost use Rattle.off_keepsql.specs.OwnCount.{asked_at, asked_behind, OwnAsked, OwnCommitted};
ghost use Rattle.off_keepsql.specs.OwnCount.{FailsByCause};
ghost use Rattle.off_keepsql.specs.SqlLaws.{one_stored};
ghost use Rattle.off_keepsql.specs.Stored.{PlaceRanged};
ghost use Rattle.off_rows.specs.KeyBytes.{key_bytes};

use crate::counts::Counts;
use crate::reading::{entry_of, row_of};
use crate::spelling::spell_all;
use off_cells::Cells;
use off_defs::{Key, Row, Writes};
use off_outside::{Failed, KeepErr, Keeper};
use off_rows::{KeyBytes, encode_key};
use std::alloc::Global;

/// A keeper whose tables stand in cells, each row under its key.
#[derive(Drop)]
pub struct SqlKeeper<C> {
    cells: C,
    counts: Counts,
}

impl<C: Cells> SqlKeeper<C> {
    /// A keeper over cells. It takes no memory, and asks nothing of the cells.
    pub fn over(cells: C) -> SqlKeeper<C>
        ensures cells { result.cells ≡ cells }
        ensures tells { SqlTells (C.seen cells) (⟦<SqlKeeper<C> as Keeper>⟧.seen result) }
    {
        SqlKeeper {
            cells,
            counts: Counts::new(),
        }
    }

    /// The cells, as they are.
    pub fn into_cells(self) -> C
        ensures { result ≡ self.cells }
    {
        self.cells
    }
}

impl<C: Cells> Keeper for SqlKeeper<C> {
    ghost seen = { λ s. over (C.seen s.cells) s.counts };

    fn get(&mut self, alloc: Global, key: &Key) -> Result<Option<Row>, KeepErr>
        ensures told { Looks result (over (C.seen self.old.cells) self.old.counts)
            (over (C.seen self.new.cells) self.new.counts)
            (λ row tables. row ≡ row_at tables key.now) }
        ensures counted { WasCounted (over (C.seen self.old.cells) self.old.counts)
            (over (C.seen self.new.cells) self.new.counts) }
        ensures own { (m : CellMap) → (C.seen self.old.cells).cells m
            → OwnAsked result (asked_at key.now m) self.old.counts.own self.new.counts.own }
        ensures cause { FailsByCause result (C.seen self.old.cells) (C.seen self.new.cells)
            self.old.counts.own self.new.counts.own }
        ensures once { OneCellCall (C.seen self.old.cells) (C.seen self.new.cells) }
    {
        self.counts.count_call();
        let ident = encode_key(key);
        let val = self.cells.get(alloc, &ident)?;
        let Some(val) = val else {
            return Ok(None);
        };
        let row = row_of(alloc, key, val.as_slice(), &mut self.counts.own)?;
        Ok(Some(row))
    }

    fn next(&mut self, alloc: Global, after: Option<&Key>) -> Result<Option<(Key, Row)>, KeepErr>
        ensures told { Looks result (over (C.seen self.old.cells) self.old.counts)
            (over (C.seen self.new.cells) self.new.counts)
            (λ entry tables. entry ≡ next_entry (option_map (λ key. key.now) after.entry) tables) }
        ensures counted { WasCounted (over (C.seen self.old.cells) self.old.counts)
            (over (C.seen self.new.cells) self.new.counts) }
        ensures own { (m : CellMap) → (C.seen self.old.cells).cells m
            → OwnAsked result (asked_behind (option_map (λ key. key.now) after.entry) m)
            self.old.counts.own self.new.counts.own }
        ensures cause { FailsByCause result (C.seen self.old.cells) (C.seen self.new.cells)
            self.old.counts.own self.new.counts.own }
        ensures once { OneCellCall (C.seen self.old.cells) (C.seen self.new.cells) }
    {
        self.counts.count_call();
        let place = place_of(after);
        let cell = self.cells.next(alloc, place.as_ref())?;
        let Some((ident, val)) = cell else {
            return Ok(None);
        };
        let entry = entry_of(alloc, ident, &val, &mut self.counts.own)?;
        Ok(Some(entry))
    }

    fn commit(&mut self, alloc: Global, writes: &Writes) -> Result<(), KeepErr>
        ensures told { Commits result (over (C.seen self.old.cells) self.old.counts)
            (over (C.seen self.new.cells) self.new.counts) writes.now }
        ensures counted { WasCounted (over (C.seen self.old.cells) self.old.counts)
            (over (C.seen self.new.cells) self.new.counts) }
        ensures own { OwnCommitted result writes.now self.old.counts.own self.new.counts.own }
        ensures cause { FailsByCause result (C.seen self.old.cells) (C.seen self.new.cells)
            self.old.counts.own self.new.counts.own }
        ensures once { OneCellCall (C.seen self.old.cells) (C.seen self.new.cells) }
    {
        self.counts.count_call();
        let spelled = spell_all(alloc, writes, &mut self.counts.own)?;
        self.cells.commit(alloc, &spelled)?;
        self.counts.count_commit();
        Ok(())
    }

    #[tactic(auto, using(off_outside::proofs::KeeperLemmas::stages_commit))]
    fn stage(&mut self, alloc: Global, writes: &Writes) -> Result<(), KeepErr> {
        self.commit(alloc, writes)
    }

    #[tactic(auto, using(off_outside::proofs::KeeperLemmas::secured_none))]
    fn secure(&mut self) -> Result<(), Failed> {
        Ok(())
    }

    fn waits(&self) -> bool {
        false
    }

    fn moment(&self) -> u64 {
        0
    }

    ghost one_tables = { λ s up. one_stored (C.seen s.cells) (C.one_cells s.cells up) };

    ghost rests = { λ s tables told opened might. absurd might };
}

// The bytes of a place of a walk.
fn place_of(after: Option<&Key>) -> Option<KeyBytes>
    ensures bytes { result
        ≡ option_map key_bytes (option_map (λ key. key.now) after.entry) }
    ensures ranged { PlaceRanged (option_map (λ key. key.now) after.entry) }
{
    match after {
        Some(key) => Some(encode_key(key)),
        None => None,
    }
}
