use off_base::{Ip4, Mac, Moment, NoMemory, Setting, Settings};
use off_defs::{Hold, Key, Lease, Row, SharedSettings, Write, Writes};
use off_keepmem::MemKeeper;
use off_outside::{Calls, KeepErr, Keeper};
use std::alloc::Global;
use std::process::Abort;
use std::test::Fail;

const MODEM: Mac = Mac([0x02, 0xaa, 0xbb, 0xcc, 0xdd, 0xee]);

const LEASED: Key = Key::Lease(Ip4(0x0a40_000a));

const HELD: Key = Key::Held(MODEM);

const ADD_ON: Key = Key::AddOn(7, 0);

fn lease(expiry: u64) -> Row {
    Row::Lease(Lease {
        hold: Hold::Bound(MODEM),
        expiry: Moment(expiry),
    })
}

// A lease alone, and then another one in its place, what the modem holds, and an add-on.
fn first_writes(alloc: Global) -> Result<Writes, NoMemory> {
    let mut writes = Writes::new(alloc);
    writes.push(Write::Put(LEASED, lease(1)))?;
    Ok(writes)
}

fn next_writes(alloc: Global) -> Result<Writes, NoMemory> {
    let mut parts = Settings::new(alloc);
    let mut value = off_base::Bytes::new(alloc);
    value.push_all(&[0, 1])?;
    parts.push(Setting::Leaf { code: 1, value })?;
    let mut settings = Settings::new(alloc);
    settings.push(Setting::Group { code: 24, parts })?;
    let mut writes = Writes::new(alloc);
    writes.push(Write::Put(HELD, Row::Held(Ip4(0x0a40_000a))))?;
    writes.push(Write::Put(LEASED, lease(2)))?;
    writes.push(Write::Drop(Key::Hub(0)))?;
    let settings = SharedSettings::new(alloc, settings)?;
    writes.push(Write::Put(ADD_ON, Row::AddOn(settings)))?;
    Ok(writes)
}

// The moment at which the lease expires, and whether the other two rows are there. Where memory
// lacks for the reading there's no answer.
fn seen(alloc: Global, keeper: &mut MemKeeper) -> Result<(u64, bool, bool), KeepErr> {
    let expiry = match keeper.get(alloc, &LEASED)? {
        Some(Row::Lease(lease)) => lease.expiry.0,
        _ => 0,
    };
    let held = keeper.get(alloc, &HELD)?.is_some();
    let add_on = keeper.get(alloc, &ADD_ON)?.is_some();
    Ok((expiry, held, add_on))
}

// A keeper after the first writes, where memory suffices.
fn started(alloc: Global) -> Option<MemKeeper> {
    let mut keeper = MemKeeper::new(alloc, Calls::new(alloc));
    let first = first_writes(alloc).ok()?;
    keeper.commit(alloc, &first).ok()?;
    Some(keeper)
}

// With ample memory the commit is done. `rt try --test --fail-alloc N` has the Nth growth refused:
// then it's done, or all is as before.
#[test]
fn a_commit_is_done_or_nothing_is(rt: HostRuntime) -> Result<(), Fail> {
    let alloc = rt.alloc();
    let Some(mut keeper) = started(alloc) else {
        return Ok(());
    };
    let Ok(next) = next_writes(alloc) else {
        return Ok(());
    };
    let expected = match keeper.commit(alloc, &next) {
        Ok(()) => (2, true, true),
        Err(_refused) => (1, false, false),
    };
    match seen(alloc, &mut keeper) {
        Ok(rows) => assert_eq!(rt; rows, expected),
        Err(_refused) => {}
    }
    Ok(())
}
