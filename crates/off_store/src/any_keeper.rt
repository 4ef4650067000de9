//! One keeper of several: whoever runs over it is compiled once, and not once for each.

ghost use Rattle.off_store.specs.AnyKeeper.{any_seen};
ghost use Rattle.off_store.specs.AnyKeeperLaws.{one_any, any_rests};

use off_defs::{Key, Row, Writes};
use off_outside::{Failed, KeepErr, Keeper};
use std::alloc::Global;

/// A keeper of tables in one of three places.
#[derive(Drop)]
pub enum AnyKeeper<M, J, D> {
    /// They are in memory.
    Memory(M),
    /// They are in a journal.
    Journal(J),
    /// They are in a database.
    Database(D),
}

impl<M: Keeper, J: Keeper, D: Keeper> Keeper for AnyKeeper<M, J, D> {
    ghost seen = { λ s. any_seen M.seen J.seen D.seen s };

    fn get(&mut self, alloc: Global, key: &Key) -> Result<Option<Row>, KeepErr> {
        match self {
            AnyKeeper::Memory(keeper) => keeper.get(alloc, key),
            AnyKeeper::Journal(keeper) => keeper.get(alloc, key),
            AnyKeeper::Database(keeper) => keeper.get(alloc, key),
        }
    }

    fn next(&mut self, alloc: Global, after: Option<&Key>) -> Result<Option<(Key, Row)>, KeepErr> {
        match self {
            AnyKeeper::Memory(keeper) => keeper.next(alloc, after),
            AnyKeeper::Journal(keeper) => keeper.next(alloc, after),
            AnyKeeper::Database(keeper) => keeper.next(alloc, after),
        }
    }

    fn commit(&mut self, alloc: Global, writes: &Writes) -> Result<(), KeepErr> {
        match self {
            AnyKeeper::Memory(keeper) => keeper.commit(alloc, writes),
            AnyKeeper::Journal(keeper) => keeper.commit(alloc, writes),
            AnyKeeper::Database(keeper) => keeper.commit(alloc, writes),
        }
    }

    fn stage(&mut self, alloc: Global, writes: &Writes) -> Result<(), KeepErr> {
        match self {
            AnyKeeper::Memory(keeper) => keeper.stage(alloc, writes),
            AnyKeeper::Journal(keeper) => keeper.stage(alloc, writes),
            AnyKeeper::Database(keeper) => keeper.stage(alloc, writes),
        }
    }

    fn secure(&mut self) -> Result<(), Failed> {
        match self {
            AnyKeeper::Memory(keeper) => keeper.secure(),
            AnyKeeper::Journal(keeper) => keeper.secure(),
            AnyKeeper::Database(keeper) => keeper.secure(),
        }
    }

    fn waits(&self) -> bool {
        match self {
            AnyKeeper::Memory(keeper) => keeper.waits(),
            AnyKeeper::Journal(keeper) => keeper.waits(),
            AnyKeeper::Database(keeper) => keeper.waits(),
        }
    }

    fn moment(&self) -> u64 {
        match self {
            AnyKeeper::Memory(keeper) => keeper.moment(),
            AnyKeeper::Journal(keeper) => keeper.moment(),
            AnyKeeper::Database(keeper) => keeper.moment(),
        }
    }

    ghost one_tables = { λ s.
        one_any M.seen J.seen D.seen M.one_tables J.one_tables D.one_tables s };

    ghost rests = { λ s. any_rests M.seen J.seen D.seen M.rests J.rests D.rests s };
}
