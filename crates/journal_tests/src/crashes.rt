//! A crash at each call.

use crate::journals::{Left, ROOM, ROWS, disk_of, found, run, run_in_steps};
use off_base::NoMemory;
use off_journal::JournalKeeper;
use off_memdisk::MemDisk;
use off_outside::Calls;
use std::alloc::Global;
use std::test::Fail;

/// The images that a disk picks.
const PICKS: u64 = 8;

/// The writes and syncs of a run that opens a journal and puts all rows: three, and four a row.
const ALL_CALLS: u64 = 19;

// Room for one record of a row, and not for two.
const STEP: usize = 30;

// No run makes so many calls.
const MANY_CALLS: u64 = 40;

// One call fails, and then all behind the last one.
fn failing(alloc: Global, one: u64, last: u64) -> Result<Calls, NoMemory> {
    let mut calls = Calls::new(alloc);
    for number in 1..MANY_CALLS {
        if number == one || number > last {
            calls.push(number)?;
        }
    }
    Ok(calls)
}

// What is found of the rows in an image that a crash leaves.
fn found_behind(alloc: Global, left: &Left, pick: u64) -> Result<[bool; ROWS], Fail> {
    let image = left.disk.crash(alloc, pick)?;
    let disk = disk_of(alloc, image.bytes())?;
    match JournalKeeper::begin(alloc, disk) {
        Ok(keeper) => {
            let mut opened = keeper;
            found(alloc, &mut opened)
        }
        Err(_unopened) => Err(Fail::from("a crash leaves no journal")),
    }
}

// All rows that were done are there, and at most one more, which was begun behind them.
fn is_kept(done: &[bool; ROWS], rows: &[bool; ROWS]) -> bool {
    let mut has_more = false;
    for place in 0..ROWS {
        if done[place] && (has_more || !rows[place]) {
            return false;
        }
        if rows[place] && !done[place] {
            if has_more {
                return false;
            }
            has_more = true;
        }
    }
    true
}

// Whether each image keeps what was done.
fn all_kept(alloc: Global, left: &Left) -> Result<bool, Fail> {
    for pick in 0..PICKS {
        let rows = found_behind(alloc, left, pick)?;
        if !is_kept(&left.done, &rows) {
            return Ok(false);
        }
    }
    Ok(true)
}

// So many of the first rows.
fn first_rows(count: u64) -> [bool; ROWS] {
    [count > 0, count > 1, count > 2, count > 3]
}

// How many rows are done before a call is the last.
fn done_by(last: u64) -> u64 {
    last.saturating_sub(3) / 4
}

// The fourth call writes the first record; before it no row is there.
#[test]
fn whatever_the_last_call(rt: HostRuntime) -> Result<(), Fail> {
    let alloc = rt.alloc();
    for last in 0..=ALL_CALLS {
        let left = run(alloc, ROOM, failing(alloc, 0, last)?)?;
        assert!(rt;
            left.done == first_rows(done_by(last)),
            "the last call is {last}"
        );
        for pick in 0..PICKS {
            let rows = found_behind(alloc, &left, pick)?;
            assert!(rt;
                is_kept(&left.done, &rows),
                "the last call is {last}, image {pick}"
            );
            assert!(rt;
                last > 3 || rows == first_rows(0),
                "the last call is {last}, image {pick}"
            );
        }
    }
    Ok(())
}

// One call fails, and the journal goes on, until a later call is the last.
#[test]
fn whichever_call_fails(rt: HostRuntime) -> Result<(), Fail> {
    let alloc = rt.alloc();
    for one in 1..=ALL_CALLS {
        for last in one..=ALL_CALLS + 1 {
            let left = run(alloc, ROOM, failing(alloc, one, last)?)?;
            assert!(rt;
                all_kept(alloc, &left)?,
                "call {one} fails, and {last} is the last"
            );
        }
    }
    Ok(())
}

// The disk grows in steps: a record that doesn't fit has zeros behind it.
#[test]
fn whichever_call_fails_in_steps(rt: HostRuntime) -> Result<(), Fail> {
    let alloc = rt.alloc();
    for one in 1..=ALL_CALLS {
        for last in one..=ALL_CALLS + 1 {
            let disk = MemDisk::new(alloc, ROOM, failing(alloc, one, last)?)?;
            let left = run_in_steps(alloc, disk, STEP)?;
            assert!(rt;
                all_kept(alloc, &left)?,
                "call {one} fails, and {last} is the last"
            );
        }
    }
    Ok(())
}

// A disk that is full at each byte.
#[test]
fn however_little_room(rt: HostRuntime) -> Result<(), Fail> {
    let alloc = rt.alloc();
    for room in 0..120 {
        let left = run(alloc, room, Calls::new(alloc))?;
        assert!(rt; all_kept(alloc, &left)?, "a room of {room}");
    }
    Ok(())
}
