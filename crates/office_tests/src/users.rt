//! Who uses what, by random writes: behind each commit the counts are those of the rows, looked up
//! one by one.

use off_base::{Ip4, Mac, NoMemory, Short};
use off_defs::{Key, Modem, Row, Write, Writes};
use off_keepmem::MemKeeper;
use off_outside::{Calls, KeepErr, Keeper};
use off_users::Users;
use std::alloc::Global;
use std::test::Fail;

// How many modems name each of four subscribers and of four classes.
type Uses = ([u64; 4], [u64; 4]);

// The next of numbers that look random (Knuth's MMIX).
fn next_seed(seed: u64) -> u64 {
    seed.wrapping_mul(6_364_136_223_846_793_005)
        .wrapping_add(1_442_695_040_888_963_407)
}

// A modem with one of the subscribers and one of the classes.
fn modem_row(seed: u64) -> Row {
    let Ok(serial) = Short::read(b"SN01") else {
        unreachable!()
    };
    Row::Modem(Modem {
        subscriber: ((seed >> 33) % 4) as u32,
        class: ((seed >> 45) % 4) as u32,
        serial,
    })
}

// A write of one of twelve modems: it's put, removed, or gets or loses its address, which changes
// no count; or its key gets a row of another kind.
fn random_write(seed: u64) -> Write {
    let modem = Mac([2, 0, 0, 0, 0, ((seed >> 20) % 12) as u8]);
    match (seed >> 58) % 8 {
        0 | 1 => Write::Drop(Key::Modem(modem)),
        2 => Write::Put(Key::Held(modem), Row::Held(Ip4(1))),
        3 => Write::Drop(Key::Held(modem)),
        4 => Write::Put(Key::Modem(modem), Row::Held(Ip4(1))),
        _ => Write::Put(Key::Modem(modem), modem_row(seed)),
    }
}

// Five writes, which may be of one modem.
fn random_writes(alloc: Global, seed: u64) -> Result<Writes, NoMemory> {
    let mut writes = Writes::new(alloc);
    let mut seed = seed;
    for _write in 0..5 {
        seed = next_seed(seed);
        writes.push(random_write(seed))?;
    }
    Ok(writes)
}

// The numbers of the subscriber and the class that a modem's row names.
fn named_by(row: &Option<Row>) -> Option<(u32, u32)> {
    let Some(held) = row else { return None };
    match held {
        Row::Modem(modem) => Some((modem.subscriber, modem.class)),
        _ => None,
    }
}

// The counts by the modems' rows, one by one.
fn walked(alloc: Global, keeper: &mut MemKeeper) -> Result<Uses, KeepErr> {
    let mut uses = ([0; 4], [0; 4]);
    for last in 0..12_u8 {
        let key = Key::Modem(Mac([2, 0, 0, 0, 0, last]));
        let row = keeper.get(alloc, &key)?;
        if let Some((subscriber, class)) = named_by(&row) {
            count(&mut uses.0, subscriber);
            count(&mut uses.1, class);
        }
    }
    Ok(uses)
}

fn count(counts: &mut [u64; 4], number: u32) {
    if number < 4 {
        let place = number as usize;
        counts[place] = counts[place].wrapping_add(1);
    }
}

// The counts that are kept.
fn kept(users: &Users) -> Uses {
    (
        [
            users.modems_of_subscriber(0),
            users.modems_of_subscriber(1),
            users.modems_of_subscriber(2),
            users.modems_of_subscriber(3),
        ],
        [
            users.modems_of_class(0),
            users.modems_of_class(1),
            users.modems_of_class(2),
            users.modems_of_class(3),
        ],
    )
}

// How many of so many commits the counts don't agree behind, and the greatest count that was seen.
fn disagreeing(alloc: Global, commits: u32) -> Result<(u32, u64), KeepErr> {
    let mut keeper = MemKeeper::new(alloc, Calls::new(alloc));
    let mut users = Users::new(alloc);
    let mut seed = 1;
    let mut wrong: u32 = 0;
    let mut greatest = 0;
    for _commit in 0..commits {
        seed = next_seed(seed);
        let writes = random_writes(alloc, seed)?;
        users.ready(&writes)?;
        keeper.commit(alloc, &writes)?;
        users.apply(&writes);
        if kept(&users) != walked(alloc, &mut keeper)? {
            wrong = wrong.wrapping_add(1);
        }
        greatest = greatest.max(users.modems_of_subscriber(1));
    }
    Ok((wrong, greatest))
}

#[test]
fn kept_counts_are_those_of_the_rows(rt: HostRuntime) -> Result<(), Fail> {
    let alloc = rt.alloc();
    let (wrong, greatest) = disagreeing(alloc, 200)?;
    assert_eq!(rt; wrong, 0);
    assert!(rt; 2 < greatest);
    Ok(())
}
