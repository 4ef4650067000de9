ghost use Rattle.std.specs.Prelude.{IfOk, IfErr};
ghost use Rattle.off_sqlcells.specs.Refusals.{FailsToBegin};
ghost use Rattle.off_sqlcells.specs.Stands.{IsSteady};
ghost use Rattle.off_keepsql.specs.Begin.{KeeperBegins, TellsNone};

use crate::sql_keeper::SqlKeeper;
use off_cells::Cells;
use off_outside::{KeepErr, Keeper};
use off_sqlcells::{Ordered, SqlCells};
use sqlite::{Connection, MemStore};
use std::alloc::Global;

impl<S: Ordered + Drop> SqlKeeper<SqlCells<S>> {
    /// A keeper over a database, whose table `office` is made where it isn't there. A database that
    /// has anything else is refused. Where it is refused, the connection is dropped.
    pub fn begin(_alloc: Global, conn: Connection<S>) -> Result<SqlKeeper<SqlCells<S>>, KeepErr>
        ensures begun { IfOk result (λ keeper. KeeperBegins S.Store conn
            (⟦<SqlCells<S> as Cells>⟧.seen keeper.cells)
            (⟦<SqlKeeper<SqlCells<S>> as Keeper>⟧.seen keeper)) }
        ensures cause { IsSteady S.Store → IfErr result (FailsToBegin S.Store conn) }
    {
        match SqlCells::begin(conn) {
            Ok(cells) => Ok(SqlKeeper::over(cells)),
            Err(err) => Err(err),
        }
    }
}

impl SqlKeeper<SqlCells<MemStore>> {
    /// A keeper over a new database in memory.
    pub fn in_memory(alloc: Global) -> Result<SqlKeeper<SqlCells<MemStore>>, KeepErr>
        ensures { IfOk result (λ keeper. TellsNone
            (⟦<SqlKeeper<SqlCells<MemStore>> as Keeper>⟧.seen keeper)) }
    {
        match Connection::open_in_memory(alloc) {
            Ok(conn) => SqlKeeper::begin(alloc, conn),
            Err(_refused) => Err(KeepErr::Memory),
        }
    }
}
