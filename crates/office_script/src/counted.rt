use off_base::Bytes;
use off_defs::{Key, Row, Writes};
use off_journal::JournalKeeper;
use off_keepsql::{CellWrite, CellWrites, Cells, MemCells, SqlCells, SqlKeeper};
use off_memdisk::MemDisk;
use off_outside::{Calls, Failed, KeepErr, Keeper};
use off_rows::KeyBytes;
use office_stage::Kept;
use script_words::Unread;
use sqlite::MemStore;
use std::alloc::Global;

/// A keeper, and how many calls it has had.
#[derive(Drop)]
pub struct Counted<K> {
    keeper: K,
    calls: u64,
}

/// Over cells in memory.
pub type InCells = Counted<SqlKeeper<MemCells>>;

/// Over a table of a database in memory.
pub type InDatabase = Counted<SqlKeeper<SqlCells<MemStore>>>;

/// In a journal over a disk in memory.
pub type InJournal = Counted<JournalKeeper<MemDisk>>;

// More than the commits of any run take.
const JOURNAL_ROOM: usize = 1 << 18;

impl<K: Keeper> Keeper for Counted<K> {
    ghost seen = { λ s. K.seen s.keeper };

    fn get(&mut self, alloc: Global, key: &Key) -> Result<Option<Row>, KeepErr> {
        self.calls = self.calls.saturating_add(1);
        self.keeper.get(alloc, key)
    }

    fn next(&mut self, alloc: Global, after: Option<&Key>) -> Result<Option<(Key, Row)>, KeepErr> {
        self.calls = self.calls.saturating_add(1);
        self.keeper.next(alloc, after)
    }

    fn commit(&mut self, alloc: Global, writes: &Writes) -> Result<(), KeepErr> {
        self.calls = self.calls.saturating_add(1);
        self.keeper.commit(alloc, writes)
    }

    fn stage(&mut self, alloc: Global, writes: &Writes) -> Result<(), KeepErr> {
        self.calls = self.calls.saturating_add(1);
        self.keeper.stage(alloc, writes)
    }

    fn secure(&mut self) -> Result<(), Failed> {
        self.keeper.secure()
    }

    fn waits(&self) -> bool {
        self.keeper.waits()
    }

    fn moment(&self) -> u64 {
        self.keeper.moment()
    }

    ghost one_tables = { λ s. K.one_tables s.keeper };

    ghost rests = { λ s. K.rests s.keeper };
}

// The same keeper over the cells with one more.
fn with_cell<C: Cells + Drop>(
    alloc: Global,
    keeper: SqlKeeper<C>,
    ident: KeyBytes,
    val: Bytes,
) -> Result<Counted<SqlKeeper<C>>, Unread> {
    let mut cells = keeper.into_cells();
    let mut writes = CellWrites::new(alloc);
    writes.push(CellWrite::Put(ident, val))?;
    match cells.commit(alloc, &writes) {
        Ok(()) => Ok(Counted {
            keeper: SqlKeeper::over(cells),
            calls: 0,
        }),
        Err(_refused) => Err(Unread::Memory),
    }
}

impl Kept for InCells {
    fn made(alloc: Global, fails: Calls) -> Result<InCells, Unread> {
        Ok(Counted {
            keeper: SqlKeeper::over(MemCells::new(alloc, fails)),
            calls: 0,
        })
    }

    fn with_cell(self, alloc: Global, ident: KeyBytes, val: Bytes) -> Result<InCells, Unread> {
        with_cell(alloc, self.keeper, ident, val)
    }

    fn calls(&self) -> u64 {
        self.calls
    }

    fn has_lost(&self) -> bool {
        false
    }
}

impl Kept for InDatabase {
    // Its calls can't be made to fail.
    fn made(alloc: Global, _fails: Calls) -> Result<InDatabase, Unread> {
        match SqlKeeper::in_memory(alloc) {
            Ok(keeper) => Ok(Counted { keeper, calls: 0 }),
            Err(_refused) => Err(Unread::Memory),
        }
    }

    fn with_cell(self, alloc: Global, ident: KeyBytes, val: Bytes) -> Result<InDatabase, Unread> {
        with_cell(alloc, self.keeper, ident, val)
    }

    fn calls(&self) -> u64 {
        self.calls
    }

    fn has_lost(&self) -> bool {
        false
    }
}

impl Kept for InJournal {
    // The listed calls are those of its disk.
    fn made(alloc: Global, fails: Calls) -> Result<InJournal, Unread> {
        let disk = MemDisk::new(alloc, JOURNAL_ROOM, fails)?;
        match JournalKeeper::begin(alloc, disk) {
            Ok(keeper) => Ok(Counted { keeper, calls: 0 }),
            Err(_unopened) => Err(Unread::Memory),
        }
    }

    // It has rows, and no cells.
    fn with_cell(self, _alloc: Global, _ident: KeyBytes, _val: Bytes) -> Result<InJournal, Unread> {
        Err(Unread::Words)
    }

    fn calls(&self) -> u64 {
        self.calls
    }

    fn has_lost(&self) -> bool {
        false
    }
}
