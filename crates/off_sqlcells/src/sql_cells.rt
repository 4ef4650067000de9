ghost use Rattle.std.specs.Prelude.{◌≡◌, false, [], ◌∷◌, IfOk, IfErr};
ghost use Rattle.std.specs.Option.{option_map};
ghost use Rattle.sqlite_value.specs.declared.value.Value.TheVariants.{Blob as Octets};
ghost use Rattle.off_cells.specs.CellsSeen.{cell_at, next_cell};
ghost use Rattle.off_cells.specs.CellCalls.{CellLooks, CellCommits, CellCallCounted};
ghost use Rattle.off_sqlcells.specs.Refusals.{LookFails, CommitFails, ShowNoValue, ShowNoCell};
ghost use Rattle.off_sqlcells.specs.SqlCellsSeen.{sql_seen, one_sql};
ghost use Rattle.off_sqlcells.specs.Stands.{IsSteady};
ghost use Rattle.off_sqlcells.specs.Statements.{get_text, walk_text, walk_params};

use crate::counting::counted;
use crate::making::make_table;
use crate::ordered::Ordered;
use crate::schemas::is_ours;
use crate::statements::{find_behind, find_val};
use crate::writing::commit_all;
use off_base::Bytes;
use off_cells::{CellWrites, Cells};
use off_outside::{KeepErr, one_more};
use off_rows::KeyBytes;
use sqlite::{Alter, Connection};
use std::alloc::Global;

/// The cells of the table `office` of a database. A look at them is one statement, and a commit one
/// transaction.
///
/// Over a steady store they tell the cells that the rows of the table hold. A fault is counted at
/// each statement that is refused for another cause than memory, at each key that doesn't have 1 to
/// 9 bytes, and at each value that isn't bytes.
#[derive(Drop)]
pub struct SqlCells<S: Alter> {
    conn: Connection<S>,
    faults: u64,
    calls: u64,
    ghost idle: { conn.in_transaction ≡ false },
}

impl<S: Ordered + Drop> SqlCells<S> {
    ghost use Rattle.off_sqlcells.specs.Refusals.{FailsToBegin};
    ghost use Rattle.off_sqlcells.specs.SqlCellsSeen.{HasBegun};

    /// The cells of a database, whose table is made where it isn't there. A database that has
    /// anything else, another table or an index, is refused. Where it is refused, the connection
    /// is dropped.
    pub fn begin(conn: Connection<S>) -> Result<SqlCells<S>, KeepErr>
        ensures begun { IfOk result
            (λ cells. HasBegun S.Store conn (⟦<SqlCells<S> as Cells>⟧.seen cells)) }
        ensures cause { IsSteady S.Store → IfErr result (FailsToBegin S.Store conn) }
    {
        if !is_ours(conn.schema()) {
            return Err(KeepErr::Failed);
        }
        let mut conn = conn;
        make_table(&mut conn)?;
        // That the tables obey the schema is told by the call that shows it.
        let _schema = conn.schema();
        if !conn.is_autocommit() {
            return Err(KeepErr::Failed);
        }
        Ok(SqlCells {
            conn,
            faults: 0,
            calls: 0,
        })
    }
}

impl<S: Alter> Cells for SqlCells<S> {
    ghost seen = { λ s. sql_seen S.Store s.conn s.faults s.calls };

    fn get(&mut self, alloc: Global, key: &KeyBytes) -> Result<Option<Bytes>, KeepErr>
        ensures told { CellLooks result
            (sql_seen S.Store self.old.conn self.old.faults self.old.calls)
            (sql_seen S.Store self.new.conn self.new.faults self.new.calls)
            (λ val cells. val ≡ cell_at cells key.now) }
        ensures counted { CellCallCounted
            (sql_seen S.Store self.old.conn self.old.faults self.old.calls)
            (sql_seen S.Store self.new.conn self.new.faults self.new.calls) }
        ensures cause { IsSteady S.Store → IfErr result (LookFails S.Store get_text
            (Octets key.now ∷ []) ShowNoValue self.old.conn self.new.conn) }
    {
        self.calls = one_more(self.calls);
        match find_val(&mut self.conn, alloc, key.as_slice()) {
            Ok(val) => Ok(val),
            Err(refused) => Err(counted(&mut self.conn, refused, &mut self.faults)),
        }
    }

    fn next(
        &mut self,
        alloc: Global,
        after: Option<&KeyBytes>,
    ) -> Result<Option<(KeyBytes, Bytes)>, KeepErr>
        ensures told { CellLooks result
            (sql_seen S.Store self.old.conn self.old.faults self.old.calls)
            (sql_seen S.Store self.new.conn self.new.faults self.new.calls)
            (λ cell cells. cell ≡ next_cell (option_map (λ key. key.now) after.entry) cells) }
        ensures counted { CellCallCounted
            (sql_seen S.Store self.old.conn self.old.faults self.old.calls)
            (sql_seen S.Store self.new.conn self.new.faults self.new.calls) }
        ensures cause { let place = option_map (λ key. key.now) after.entry in IsSteady S.Store
            → IfErr result (LookFails S.Store (walk_text place) (walk_params place) ShowNoCell
            self.old.conn self.new.conn) }
    {
        self.calls = one_more(self.calls);
        match find_behind(&mut self.conn, alloc, after) {
            Ok(cell) => Ok(cell),
            Err(refused) => Err(counted(&mut self.conn, refused, &mut self.faults)),
        }
    }

    fn commit(&mut self, _alloc: Global, writes: &CellWrites) -> Result<(), KeepErr>
        ensures told { CellCommits result
            (sql_seen S.Store self.old.conn self.old.faults self.old.calls)
            (sql_seen S.Store self.new.conn self.new.faults self.new.calls) writes.now }
        ensures counted { CellCallCounted
            (sql_seen S.Store self.old.conn self.old.faults self.old.calls)
            (sql_seen S.Store self.new.conn self.new.faults self.new.calls) }
        ensures cause { IsSteady S.Store → IfErr result
            (CommitFails S.Store writes.now self.old.conn self.new.conn) }
    {
        match commit_all(&mut self.conn, writes, &mut self.calls) {
            Ok(()) => Ok(()),
            Err(refused) => Err(counted(&mut self.conn, refused, &mut self.faults)),
        }
    }

    ghost one_cells = { λ s up. one_sql up.1 };
}
