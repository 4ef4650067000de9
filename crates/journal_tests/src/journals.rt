//! Journals of some rows, and what is found in one.

use off_base::{Ip4, Mac, NoMemory};
use off_defs::{Key, Row, Write, Writes};
use off_journal::{JournalKeeper, Unopened};
use off_memdisk::MemDisk;
use off_outside::{Calls, Keeper};
use std::alloc::Global;
use std::test::Fail;

/// More than any run takes.
pub(crate) const ROOM: usize = 1024;

/// How many rows are put, each by a commit.
pub(crate) const ROWS: usize = 4;

// The key of a row.
fn key(place: usize) -> Key {
    Key::Held(Mac([2, 0xaa, 0xbb, 0xcc, 0xdd, 0xee - (place % ROWS) as u8]))
}

/// Puts a row by a commit, and tells whether it was done.
pub(crate) fn put(alloc: Global, keeper: &mut JournalKeeper<MemDisk>, place: usize) -> bool {
    let mut writes = Writes::new(alloc);
    let row = Row::Held(Ip4(0x0a40_000a));
    if writes.push(Write::Put(key(place), row)).is_err() {
        return false;
    }
    keeper.commit(alloc, &writes).is_ok()
}

/// Which of the rows are there.
pub(crate) fn found(
    alloc: Global,
    keeper: &mut JournalKeeper<MemDisk>,
) -> Result<[bool; ROWS], Fail> {
    let mut rows = [false; ROWS];
    for place in 0..ROWS {
        rows[place] = keeper.get(alloc, &key(place))?.is_some();
    }
    Ok(rows)
}

/// A disk with these bytes, and with room.
pub(crate) fn disk_of(alloc: Global, bytes: &[u8]) -> Result<MemDisk, Fail> {
    if bytes.len() > ROOM {
        return Err(Fail::from("too many bytes"));
    }
    let mut base = Vec::new(alloc);
    base.extend_from_slice(bytes)?;
    Ok(MemDisk::over(alloc, base, ROOM, Calls::new(alloc))?)
}

/// A disk as it was left, and which of the rows were done.
#[derive(Drop)]
pub(crate) struct Left {
    pub(crate) disk: MemDisk,
    pub(crate) done: [bool; ROWS],
}

/// Begins a journal on an empty disk, and puts each row, whatever became of those before it.
pub(crate) fn run(alloc: Global, room: usize, fails: Calls) -> Result<Left, NoMemory> {
    run_in_steps(alloc, MemDisk::new(alloc, room, fails)?, 0)
}

/// The same, where a record that doesn't fit into the disk has so many zeros behind it.
pub(crate) fn run_in_steps(alloc: Global, disk: MemDisk, step: usize) -> Result<Left, NoMemory> {
    match JournalKeeper::begin_with_room(alloc, disk, step) {
        Ok(keeper) => Ok(filled(alloc, keeper)),
        Err(unopened) => Ok(unbegun(unopened)),
    }
}

fn filled(alloc: Global, begun: JournalKeeper<MemDisk>) -> Left {
    let mut keeper = begun;
    let mut done = [false; ROWS];
    for place in 0..ROWS {
        done[place] = put(alloc, &mut keeper, place);
    }
    Left {
        disk: keeper.into_disk(),
        done,
    }
}

fn unbegun(unopened: Unopened<MemDisk>) -> Left {
    Left {
        disk: unopened.disk,
        done: [false; ROWS],
    }
}
