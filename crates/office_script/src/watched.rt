use crate::crashes::Crashes;
use off_base::{Bytes, NoMemory};
use off_defs::{Key, Row, Writes};
use off_journal::JournalKeeper;
use off_memdisk::MemDisk;
use off_outside::{Calls, Failed, KeepErr, Keeper};
use off_rows::KeyBytes;
use office_stage::Kept;
use script_words::Unread;
use std::alloc::Global;

/// A journal over a disk in memory, of which a crash is tried behind each commit, whether it was
/// done or not.
#[derive(Drop)]
pub struct Watched<K> {
    keeper: K,
    crashes: Crashes,
    calls: u64,
}

/// A journal that is watched.
pub type InWatched = Watched<JournalKeeper<MemDisk>>;

/// What keeps tables on a disk in memory.
pub trait OnDisk {
    /// The disk.
    fn lies_on(&self) -> &MemDisk;
}

impl OnDisk for JournalKeeper<MemDisk> {
    fn lies_on(&self) -> &MemDisk {
        self.disk()
    }
}

// More than the commits of any run take.
const ROOM: usize = 1 << 16;

// The disk's call of this number is the first behind those that begin a journal and put the opening
// rows. The script numbers the keeper's calls; the one that puts the opening rows is its first.
const BEHIND_THE_OPENING: u64 = 8;

// Calls of a script beyond this number aren't made to fail.
const MOST_CALLS: u64 = 400;

impl<K: Keeper + OnDisk> Keeper for Watched<K> {
    ghost seen = { λ s. K.seen s.keeper };

    fn get(&mut self, alloc: Global, key: &Key) -> Result<Option<Row>, KeepErr> {
        self.calls = self.calls.saturating_add(1);
        self.keeper.get(alloc, key)
    }

    fn next(&mut self, alloc: Global, after: Option<&Key>) -> Result<Option<(Key, Row)>, KeepErr> {
        self.calls = self.calls.saturating_add(1);
        self.keeper.next(alloc, after)
    }

    fn commit(&mut self, alloc: Global, writes: &Writes) -> Result<(), KeepErr> {
        self.calls = self.calls.saturating_add(1);
        let result = self.keeper.commit(alloc, writes);
        let is_done = result.is_ok();
        watch(
            alloc,
            self.keeper.lies_on(),
            &mut self.crashes,
            writes,
            is_done,
        );
        result
    }

    fn stage(&mut self, alloc: Global, writes: &Writes) -> Result<(), KeepErr> {
        self.calls = self.calls.saturating_add(1);
        let result = self.keeper.stage(alloc, writes);
        let is_done = result.is_ok();
        watch(
            alloc,
            self.keeper.lies_on(),
            &mut self.crashes,
            writes,
            is_done,
        );
        result
    }

    fn secure(&mut self) -> Result<(), Failed> {
        self.keeper.secure()
    }

    fn waits(&self) -> bool {
        self.keeper.waits()
    }

    fn moment(&self) -> u64 {
        self.keeper.moment()
    }

    ghost one_tables = { λ s. K.one_tables s.keeper };

    ghost rests = { λ s. K.rests s.keeper };
}

// Takes a commit. Where memory is wanted for that, it's as if rows were lost.
fn watch(alloc: Global, disk: &MemDisk, crashes: &mut Crashes, writes: &Writes, is_done: bool) {
    if crashes.take(alloc, disk, writes, is_done).is_err() {
        crashes.give_up();
    }
}

// The disk's calls that are to fail: those of the script, counted from the opening rows on.
fn shifted(alloc: Global, fails: &Calls) -> Result<Calls, NoMemory> {
    let mut calls = Calls::new(alloc);
    push_shifted(&mut calls, fails)?;
    Ok(calls)
}

fn push_shifted(calls: &mut Calls, fails: &Calls) -> Result<(), NoMemory> {
    for number in 2..MOST_CALLS {
        push_if(calls, fails.has(number), number)?;
    }
    Ok(())
}

fn push_if(calls: &mut Calls, is_listed: bool, number: u64) -> Result<(), NoMemory> {
    if is_listed {
        return calls.push(number.saturating_add(BEHIND_THE_OPENING).saturating_sub(2));
    }
    Ok(())
}

// A disk of which the script's calls fail.
fn disk_of(alloc: Global, fails: &Calls) -> Result<MemDisk, NoMemory> {
    let calls = shifted(alloc, fails)?;
    MemDisk::new(alloc, ROOM, calls)
}

// A journal on the disk.
fn begun(alloc: Global, disk: MemDisk) -> Result<InWatched, Unread> {
    match JournalKeeper::begin(alloc, disk) {
        Ok(keeper) => Ok(Watched {
            keeper,
            crashes: Crashes::new(alloc),
            calls: 0,
        }),
        Err(_unopened) => Err(Unread::Memory),
    }
}

impl Kept for InWatched {
    fn made(alloc: Global, fails: Calls) -> Result<InWatched, Unread> {
        let disk = disk_of(alloc, &fails)?;
        begun(alloc, disk)
    }

    // It has rows, and no cells.
    fn with_cell(self, _alloc: Global, _ident: KeyBytes, _val: Bytes) -> Result<InWatched, Unread> {
        Err(Unread::Words)
    }

    fn calls(&self) -> u64 {
        self.calls
    }

    fn has_lost(&self) -> bool {
        self.crashes.has_lost()
    }
}
