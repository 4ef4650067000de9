//! The tables in a journal, which is a file of the commits that were done.

ghost use Rattle.std.specs.Prelude.{◌≡◌, IfOk};
ghost use Rattle.off_store.specs.Begin.{BeginsOverDisk};

use crate::store::StoreErr;
use off_file_disk::{DiskErr, FileDisk, open_disk};
use off_journal::{Disk, Failed, JournalKeeper, OpenErr};
use off_outside::Keeper;

// A file of changes grows by so many bytes at once.
const ROOM: usize = 1 << 16;

/// A keeper of the tables in a journal.
pub type FileJournal = JournalKeeper<FileDisk>;

impl From<DiskErr> for StoreErr {
    fn from(error: DiskErr) -> StoreErr {
        match error {
            DiskErr::Memory => StoreErr::Memory,
            DiskErr::Refused => StoreErr::Refused,
        }
    }
}

impl From<Failed> for StoreErr {
    fn from(_failed: Failed) -> StoreErr {
        StoreErr::Refused
    }
}

/// Opens the journal at a path, or makes an empty one.
pub fn open_journal(rt: &HostRuntime, path: &str) -> Result<FileJournal, StoreErr>
    ensures { IfOk result (λ keeper. BeginsOverDisk ⟦<FileDisk as Disk>⟧.seen
        (⟦<FileJournal as Keeper>⟧.seen keeper)) }
{
    let mut disk = open_disk(rt, path)?;
    let may_be = may_be_journal(&mut disk)?;
    if !may_be {
        return Err(StoreErr::Refused);
    }
    match JournalKeeper::begin_with_room(rt.alloc(), disk, ROOM) {
        Ok(keeper) => Ok(keeper),
        Err(unopened) => Err(not_begun(unopened.why)),
    }
}

// Whether a file is empty, or its first gate is open or closed. To a journal each other byte is a
// closed gate too, so it would write over a database or a text that was named by mistake.
fn may_be_journal(disk: &mut FileDisk) -> Result<bool, Failed>
    ensures { IfOk result (λ _. (⟦<FileDisk as Disk>⟧.seen disk.new).faults
        ≡ (⟦<FileDisk as Disk>⟧.seen disk.old).faults) }
{
    if disk.length() == 0 {
        return Ok(true);
    }
    let mut gate = [0];
    disk.read(0, &mut gate)?;
    let [first] = gate;
    Ok(first <= 1)
}

// Why a journal isn't opened.
fn not_begun(why: OpenErr) -> StoreErr {
    match why {
        OpenErr::Memory => StoreErr::Memory,
        OpenErr::Failed | OpenErr::Bad(_) => StoreErr::Refused,
    }
}
