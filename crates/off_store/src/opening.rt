//! The keeper of the tables that a word names.

ghost use Rattle.std.specs.Prelude.{◌≡◌, IfOk};
ghost use Rattle.off_keepsql.specs.Begin.{TellsNone};
ghost use Rattle.off_store.specs.Begin.{BeginsOverDisk, BeginsInFront};
ghost use Rattle.off_store.specs.Places.{NamesPlace, IsInMemory, BeginsAt};

use crate::any_keeper::AnyKeeper;
use crate::journal::{FileJournal, open_journal};
use crate::store::{FileKeeper, StoreErr, StoredKeeper, open_store};
use off_file_disk::FileDisk;
use off_journal::Disk as JournalDisk;
use off_keepmem::MemKeeper;
use off_keepsql::{Cells, SqlCells};
use off_outside::{Calls, Keeper};
use sqlite::{File, FileStore};
use sqlite_disk::Disk;

/// Where the tables stand.
#[derive(Clone, Copy)]
pub enum Place<'a> {
    /// In memory.
    Memory,
    /// In the journal at this path.
    Journal(&'a str),
    /// In the database at this path.
    Database(&'a str),
}

/// The keeper of the office's tables.
pub type OfficeKeeper = AnyKeeper<MemKeeper, FileJournal, FileKeeper>;

/// The place that a word names: `memory`, or `journal:` and the path of a journal, or the path of a
/// database.
pub fn place_named(word: &str) -> Place<'_>
    ensures { NamesPlace word.now result }
{
    if word == "memory" {
        return Place::Memory;
    }
    match word.strip_prefix("journal:") {
        Some(path) => Place::Journal(path),
        None => Place::Database(word),
    }
}

/// A keeper of empty tables, in memory.
pub fn in_memory(rt: &HostRuntime) -> OfficeKeeper
    ensures { IsInMemory result (λ keeper. TellsNone (⟦<MemKeeper as Keeper>⟧.seen keeper)) }
{
    AnyKeeper::Memory(MemKeeper::new(rt.alloc(), Calls::new(rt.alloc())))
}

/// The keeper of the tables at a place. What isn't there is made, and is empty.
pub fn open_keeper(rt: &HostRuntime, place: Place<'_>) -> Result<OfficeKeeper, StoreErr>
    ensures { IfOk result (λ keeper. BeginsAt place.entry keeper
        (λ memory. TellsNone (⟦<MemKeeper as Keeper>⟧.seen memory))
        (λ journal. BeginsOverDisk ⟦<FileDisk as JournalDisk>⟧.seen
        (⟦<FileJournal as Keeper>⟧.seen journal))
        (λ database. BeginsInFront ⟦<File as Disk>⟧
        (λ (stored : _). ⟦<SqlCells<FileStore<File>> as Cells>⟧.seen stored.cells)
        ⟦<StoredKeeper as Keeper>⟧.seen database)) }
{
    match place {
        Place::Memory => Ok(in_memory(rt)),
        Place::Journal(path) => Ok(AnyKeeper::Journal(open_journal(rt, path)?)),
        Place::Database(path) => Ok(AnyKeeper::Database(open_store(rt, path)?)),
    }
}
