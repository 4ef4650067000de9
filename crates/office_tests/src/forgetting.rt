ghost use Rattle.std.specs.Prelude.{◌≤◌};

use crate::silence::{Answers, Silent, unasked};
use off_defs::{Key, Row, Writes};
use off_drill_job::drill;
use off_keepmem::MemKeeper;
use off_outside::{Calls, Events, Keeper, MemLink, MemSink};
use std::alloc::Global;
use std::test::Fail;

// It keeps the first commits alone, and behind them it finds a lease so many times more.
#[derive(Drop)]
struct Forgetful {
    kept: MemKeeper,
    keeps: u64,
    finds: u64,
}

impl Answers for Forgetful {
    fn row(&mut self, alloc: Global, key: &Key, commits: u64) -> Option<Option<Row>> {
        if commits >= self.keeps && is_lease(key) {
            if self.finds == 0 {
                return Some(None);
            }
            self.finds -= 1;
        }
        self.kept.get(alloc, key).ok()
    }

    fn entry(&mut self, alloc: Global, after: Option<&Key>) -> Option<Option<(Key, Row)>> {
        self.kept.next(alloc, after).ok()
    }

    fn write(&mut self, alloc: Global, writes: &Writes, commits: u64) -> Option<()> {
        if commits < self.keeps {
            self.kept.commit(alloc, writes).ok()
        } else {
            Some(())
        }
    }
}

fn is_lease(key: &Key) -> bool {
    match key {
        Key::Lease(_) => true,
        _ => false,
    }
}

fn keeper_that_forgets(alloc: Global, keeps: u64, finds: u64) -> Silent<Forgetful> {
    unasked(Forgetful {
        kept: MemKeeper::new(alloc, Calls::new(alloc)),
        keeps,
        finds,
    })
}

// A drill over a keeper that forgets: its line, and how many items were sent.
fn drilled(
    alloc: Global,
    count: u32,
    keeper: &mut Silent<Forgetful>,
    line: &str,
    items: usize,
) -> Result<bool, Fail>
    requires { count ≤ 4000 }
{
    let mut link = MemLink::new(alloc, Events::new(alloc), 300, 100_000, Calls::new(alloc))?;
    let mut out = MemSink::new(alloc, 200, Calls::new(alloc))?;
    let status = drill(alloc, count, &mut link, keeper, &mut out);
    Ok(status == 0 && out.written() == line.as_bytes() && link.sent_len() == items)
}

// Of a keeper that keeps nothing the commands for the pool and for the modem are refused, since
// there is no hub and no subscriber, and go by; no DISCOVER has an offer, and the rest of its
// modem's steps are left out.
#[test]
fn a_drill_goes_by_what_is_refused(rt: HostRuntime) -> Result<(), Fail> {
    let line = "drill 2 offers 0 acks 0 files 0 blocks 0 octets 0\n";
    let mut keeper = keeper_that_forgets(rt.alloc(), 0, 0);
    assert!(rt; drilled(rt.alloc(), 2, &mut keeper, line, 0)?);
    Ok(())
}

// The hub, the class, the pool, the subscriber, the modem, the offer and the lease are kept; the
// lease is found for the read request alone. That it agrees is remembered, so each block goes: an
// offer, an acknowledgement, the options of the transfer and three blocks are sent.
#[test]
fn a_drill_looks_once_whether_a_lease_agrees(rt: HostRuntime) -> Result<(), Fail> {
    let line = "drill 1 offers 1 acks 1 files 1 blocks 3 octets 88\n";
    let mut keeper = keeper_that_forgets(rt.alloc(), 7, 1);
    assert!(rt; drilled(rt.alloc(), 1, &mut keeper, line, 6)?);
    Ok(())
}
