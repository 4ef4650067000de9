ghost use Rattle.std.specs.Prelude.{◌≡◌, ◌+◌, ◌≤◌, ◌∷◌, ◌++◌, [], length, MatchResult, IfOk, OnOk};
ghost use Rattle.std.specs.Option.{option_map};
ghost use Rattle.off_defs.specs.Counts.{most_count, one_more};
ghost use Rattle.off_defs.specs.Told.{one_exact};
ghost use Rattle.off_cells.specs.CellsSeen.{cell_at, next_cell};
ghost use Rattle.off_cells.specs.CellCalls.{CellLooks, CellCommits, CellCallCounted};
ghost use Rattle.off_cells.specs.CellWritten.{cell_written, write_cells};
ghost use Rattle.off_cells.specs.MemCellsSeen.{mem_seen, MemCellsTell, AreNew, MemCellsRead};
ghost use Rattle.off_cells.specs.MemCellsSeen.{MemCellsKept, MemCellLooks, MemCellCommits};

use crate::cells::Cells;
use crate::sorted::Sorted;
use crate::writes::{CellWrite, CellWrites};
use off_base::{Bytes, NoMemory};
use off_outside::{Calls, Failing, KeepErr, one_more};
use off_rows::KeyBytes;
use std::alloc::Global;
use std::marker::Model;

/// Cells in memory. A call takes time that grows with the cells, so they serve small tables.
///
/// A commit first takes all the memory that it wants, and then makes its change without any.
#[derive(Drop)]
pub struct MemCells {
    cells: Sorted,
    failing: Failing,
    faults: u64,
}

impl Model for MemCells {
    ghost use Rattle.off_cells.specs.SortedCells.{MemCellsHeld, mem_code};

    ghost Value = { MemCellsHeld };

    ghost coded = { mem_code };

    ghost view = { λ m. record {
      cells = m.cells.cells;
      room = m.cells.room;
      calls = m.failing;
      faults = m.faults;
    } };
}

impl MemCells {
    /// No cells. The calls of the listed numbers fail, and no others. It takes no memory.
    pub fn new(alloc: Global, fails: Calls) -> MemCells
        ensures empty { AreNew fails result }
        ensures tell { MemCellsTell result (⟦<MemCells as Cells>⟧.seen result) }
    {
        MemCells {
            cells: Sorted::new(alloc),
            failing: Failing::new(fails),
            faults: 0,
        }
    }

    /// Counts a call, and fails where it is listed.
    fn count_call(&mut self) -> Result<(), KeepErr>
        ensures did { MatchResult result (λ _. MemCellsRead self.old self.new)
            (λ err. MemCellsKept err self.old self.new) }
        ensures fits { self.old.faults ≤ most_count }
    {
        let faults = self.faults;
        if self.failing.call() {
            self.faults = one_more(faults);
            return Err(KeepErr::Failed);
        }
        Ok(())
    }

    /// The value of a key.
    fn value(&self, key: KeyBytes) -> Result<Option<Bytes>, NoMemory>
        ensures { IfOk result (λ val. val ≡ cell_at self.now.cells key) }
    {
        match self.cells.find(key) {
            Some(cell) => Ok(Some(cell.1.copy()?)),
            None => Ok(None),
        }
    }

    /// The next cell of a walk.
    fn cell_behind(&self, place: Option<KeyBytes>) -> Result<Option<(KeyBytes, Bytes)>, NoMemory>
        ensures { IfOk result (λ cell. cell ≡ next_cell place self.now.cells) }
    {
        match self.cells.next(place) {
            Some(cell) => Ok(Some((cell.0, cell.1.copy()?))),
            None => Ok(None),
        }
    }

    fn look_up(&mut self, key: KeyBytes) -> Result<Option<Bytes>, KeepErr>
        ensures { MemCellLooks result self.old self.new (λ val cells. val ≡ cell_at cells key) }
    {
        self.count_call()?;
        Ok(self.value(key)?)
    }

    fn walk_on(&mut self, place: Option<KeyBytes>) -> Result<Option<(KeyBytes, Bytes)>, KeepErr>
        ensures { MemCellLooks result self.old self.new
            (λ cell cells. cell ≡ next_cell place cells) }
    {
        self.count_call()?;
        Ok(self.cell_behind(place)?)
    }

    fn do_all(&mut self, alloc: Global, writes: &CellWrites) -> Result<(), KeepErr>
        ensures { MemCellCommits result self.old self.new writes.now }
    {
        self.count_call()?;
        let copies = copied(alloc, writes)?;
        self.cells.reserve(copies.len())?;
        write_all(&mut self.cells, copies);
        Ok(())
    }
}

impl Cells for MemCells {
    ghost seen = { λ m. mem_seen m };

    fn get(&mut self, _alloc: Global, key: &KeyBytes) -> Result<Option<Bytes>, KeepErr>
        ensures told { CellLooks result (mem_seen self.old) (mem_seen self.new)
            (λ val cells. val ≡ cell_at cells key.now) }
        ensures counted { CellCallCounted (mem_seen self.old) (mem_seen self.new) }
        ensures exact { MemCellLooks result self.old self.new
            (λ val cells. val ≡ cell_at cells key.now) }
    {
        self.look_up(*key)
    }

    fn next(
        &mut self,
        _alloc: Global,
        after: Option<&KeyBytes>,
    ) -> Result<Option<(KeyBytes, Bytes)>, KeepErr>
        ensures told { CellLooks result (mem_seen self.old) (mem_seen self.new)
            (λ cell cells. cell ≡ next_cell (option_map (λ key. key.now) after.entry) cells) }
        ensures counted { CellCallCounted (mem_seen self.old) (mem_seen self.new) }
        ensures exact { MemCellLooks result self.old self.new
            (λ cell cells. cell ≡ next_cell (option_map (λ key. key.now) after.entry) cells) }
    {
        self.walk_on(after.copied())
    }

    fn commit(&mut self, alloc: Global, writes: &CellWrites) -> Result<(), KeepErr>
        ensures told { CellCommits result (mem_seen self.old) (mem_seen self.new) writes.now }
        ensures counted { CellCallCounted (mem_seen self.old) (mem_seen self.new) }
        ensures exact { MemCellCommits result self.old self.new writes.now }
    {
        self.do_all(alloc, writes)
    }

    ghost one_cells = { λ m up. one_exact m.cells };
}

/// The same writes again.
fn copied(alloc: Global, writes: &CellWrites) -> Result<Vec<CellWrite>, NoMemory>
    ensures { IfOk result (λ copies. copies.items ≡ writes.now) }
{
    let mut copies = Vec::new(alloc);
    for i in 0..writes.len() {
        let write = writes.get(i);
        push_copy(&mut copies, write)?;
    }
    Ok(copies)
}

fn push_copy(copies: &mut Vec<CellWrite>, write: &CellWrite) -> Result<(), NoMemory>
    ensures { OnOk result (copies.new.items ≡ copies.old.items ++ write.now ∷ []) }
{
    match copies.push(copy_write(write)?) {
        Ok(()) => Ok(()),
        Err(_refused) => Err(NoMemory),
    }
}

fn copy_write(write: &CellWrite) -> Result<CellWrite, NoMemory>
    ensures { IfOk result (λ copy. copy ≡ write.now) }
{
    match write {
        CellWrite::Put(key, val) => Ok(CellWrite::Put(*key, val.copy()?)),
        CellWrite::Drop(key) => Ok(CellWrite::Drop(*key)),
    }
}

/// Does writes in order. There has to be room for a cell each.
fn write_all(cells: &mut Sorted, writes: Vec<CellWrite>)
    requires { length writes.items ≤ cells.old.room }
    ensures { cells.new.cells ≡ write_cells cells.old.cells writes.items }
{
    for write in writes {
        do_write(cells, write);
    }
}

fn do_write(cells: &mut Sorted, write: CellWrite)
    requires { 1 ≤ cells.old.room }
    ensures cells { cells.new.cells ≡ cell_written cells.old.cells write }
    ensures room { cells.old.room ≤ cells.new.room + 1 }
{
    match write {
        CellWrite::Put(key, val) => cells.put(key, val),
        CellWrite::Drop(key) => cells.remove(key),
    }
}
