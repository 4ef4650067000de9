//! Files, and what an opening makes of them.

use crate::journals::{ROOM, disk_of, found, put};
use off_journal::{JournalKeeper, OpenErr};
use off_memdisk::MemDisk;
use off_outside::Calls;
use std::alloc::Global;
use std::test::Fail;

// A journal of one commit: 02:aa:bb:cc:dd:ee has the address 10.64.0.10.
const ONE_ROW: [u8; 23] = [
    1, 0, 0, 0, 0x11, 1, 7, 8, 2, 0xaa, 0xbb, 0xcc, 0xdd, 0xee, 0, 0, 0, 4, 0x0a, 0x40, 0, 0x0a, 0,
];

// The same, and behind it a record whose payload begins with 3, as no write does.
const BAD_BEHIND: [u8; 29] = [
    1, 0, 0, 0, 0x11, 1, 7, 8, 2, 0xaa, 0xbb, 0xcc, 0xdd, 0xee, 0, 0, 0, 4, 0x0a, 0x40, 0, 0x0a, 1,
    0, 0, 0, 1, 3, 0,
];

// The same, and the good record once more behind it.
const BAD_BETWEEN: [u8; 51] = [
    1, 0, 0, 0, 0x11, 1, 7, 8, 2, 0xaa, 0xbb, 0xcc, 0xdd, 0xee, 0, 0, 0, 4, 0x0a, 0x40, 0, 0x0a, 1,
    0, 0, 0, 1, 3, 1, 0, 0, 0, 0x11, 1, 7, 8, 2, 0xaa, 0xbb, 0xcc, 0xdd, 0xee, 0, 0, 0, 4, 0x0a,
    0x40, 0, 0x0a, 0,
];

// What an opening makes of a file.
#[derive(Drop)]
enum Opens<'a> {
    // It is a journal, with the row or without, and these are its bytes from then on.
    With(bool, &'a [u8]),
    // A record at this place is none.
    Bad(u64),
}

// Opens a file, and tells what is wrong with what became of it.
fn fault(alloc: Global, bytes: &[u8], expected: &Opens<'_>) -> Result<Option<&'static str>, Fail> {
    let disk = disk_of(alloc, bytes)?;
    match JournalKeeper::begin(alloc, disk) {
        Ok(keeper) => fault_of(alloc, keeper, expected),
        Err(unopened) => match expected {
            Opens::With(..) => Ok(Some("it isn't opened")),
            Opens::Bad(place) if unopened.why != OpenErr::Bad(*place) => Ok(Some("the place")),
            Opens::Bad(_) if unopened.disk.bytes() != bytes => Ok(Some("what is left")),
            Opens::Bad(_) => Ok(None),
        },
    }
}

fn fault_of(
    alloc: Global,
    opened: JournalKeeper<MemDisk>,
    expected: &Opens<'_>,
) -> Result<Option<&'static str>, Fail> {
    let mut keeper = opened;
    let [has_row, ..] = found(alloc, &mut keeper)?;
    match expected {
        Opens::With(has, _) if has_row != *has => Ok(Some("the row")),
        Opens::With(_, bytes) if keeper.disk().bytes() != *bytes => Ok(Some("what is left")),
        Opens::With(..) => Ok(None),
        Opens::Bad(_) => Ok(Some("it is opened")),
    }
}

// The journal of one row with another gate in front, or another one behind.
fn with_gates(front: u8, behind: u8) -> [u8; 23] {
    let mut bytes = ONE_ROW;
    bytes[0] = front;
    bytes[22] = behind;
    bytes
}

#[test]
fn a_commit_is_a_record(rt: HostRuntime) -> Result<(), Fail> {
    let alloc = rt.alloc();
    let disk = MemDisk::new(alloc, ROOM, Calls::new(alloc))?;
    let Ok(begun) = JournalKeeper::begin(alloc, disk) else {
        return Err(Fail::from("an empty disk isn't opened"));
    };
    let mut keeper = begun;
    assert!(rt; put(alloc, &mut keeper, 0));
    assert_eq!(rt; keeper.disk().bytes(), ONE_ROW.as_slice());
    Ok(())
}

// Zeros stand behind the first record. The second is written over them; the third doesn't fit, and
// has zeros behind it again.
#[test]
fn a_disk_grows_in_steps(rt: HostRuntime) -> Result<(), Fail> {
    let alloc = rt.alloc();
    let disk = MemDisk::new(alloc, ROOM, Calls::new(alloc))?;
    let Ok(begun) = JournalKeeper::begin_with_room(alloc, disk, 30) else {
        return Err(Fail::from("an empty disk isn't opened"));
    };
    let mut keeper = begun;
    assert!(rt; put(alloc, &mut keeper, 0));
    assert!(rt; keeper.disk().bytes().starts_with(&ONE_ROW));
    assert_eq!(rt; keeper.disk().bytes().len(), 53);
    assert!(rt; put(alloc, &mut keeper, 1));
    assert_eq!(rt; keeper.disk().bytes().len(), 53);
    assert!(rt; put(alloc, &mut keeper, 2));
    assert_eq!(rt; keeper.disk().bytes().len(), 97);
    Ok(())
}

#[test]
fn files_are_opened_or_bad(rt: HostRuntime) -> Result<(), Fail> {
    let one_row = ONE_ROW.as_slice();
    let shut = with_gates(0, 0);
    let open_end = with_gates(1, 1);
    let odd_end = with_gates(1, 2);
    let examples = [
        // Nothing, and a gate alone: one that is 1 has no record behind it.
        ([].as_slice(), Opens::With(false, &[0])),
        (&[0], Opens::With(false, &[0])),
        (&[1], Opens::With(false, &[0])),
        (&[2], Opens::With(false, &[2])),
        // A commit of no writes.
        (&[1, 0, 0, 0, 0, 0], Opens::With(false, &[1, 0, 0, 0, 0, 0])),
        // A row; a gate behind it that is 1; and one that is neither.
        (one_row, Opens::With(true, one_row)),
        (&open_end, Opens::With(true, one_row)),
        (&odd_end, Opens::With(true, &odd_end)),
        // Its record behind a gate that isn't open, and one that was cut short.
        (&shut, Opens::With(false, &shut)),
        (&one_row[..5], Opens::With(false, &[0, 0, 0, 0, 0x11])),
        (&[1, 0, 0, 0, 1, 3], Opens::With(false, &[0, 0, 0, 0, 1, 3])),
        // A record without writes of a payload, at the front, behind another, and in between.
        (&[1, 0, 0, 0, 1, 3, 0], Opens::Bad(1)),
        (&BAD_BEHIND, Opens::Bad(23)),
        (&BAD_BETWEEN, Opens::Bad(23)),
    ];
    for (bytes, expected) in &examples {
        let found = fault(rt.alloc(), bytes, expected)?;
        assert_eq!(rt; found, None, "{bytes:?}");
    }
    Ok(())
}
