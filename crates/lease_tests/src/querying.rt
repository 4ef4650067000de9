//! A relay's query, over the keeper alone and over what is kept of its pools.

use crate::lease_rows::{AT, MODEM, RELAY, office_rows};
use off_base::{Bytes, Ip4, Moment, NoMemory, Peer};
use off_defs::{Hold, Key, Lease, Row, Sent, Write, Writes};
use off_keepmem::MemKeeper;
use off_outside::{Calls, KeepErr, Keeper};
use off_query::{QueryStep, QueryWord, query_or_message, reply, reply_by};
use off_runs::FreeRuns;
use std::alloc::Global;
use std::test::Fail;

// 10.64.0.10, which the modem has, and 10.64.0.50.
const HELD: Ip4 = Ip4(0x0a40_000a);

const FREE: Ip4 = Ip4(0x0a40_0032);

// The office with a lease that ends a day after its moment.
fn leased_rows(alloc: Global) -> Result<Writes, NoMemory> {
    let mut writes = office_rows(alloc)?;
    let lease = Lease {
        hold: Hold::Bound(MODEM),
        expiry: Moment(AT.0 + 86_400),
    };
    writes.push(Write::Put(Key::Lease(HELD), Row::Lease(lease)))?;
    writes.push(Write::Put(Key::Held(MODEM), Row::Held(HELD)))?;
    Ok(writes)
}

// A keeper of these rows.
fn leased_keeper(alloc: Global) -> Result<MemKeeper, KeepErr> {
    let rows = leased_rows(alloc)?;
    let mut keeper = MemKeeper::new(alloc, Calls::new(alloc));
    keeper.commit(alloc, &rows)?;
    Ok(keeper)
}

// A query, of which the hardware's type and length, ciaddr and chaddr are told.
fn query(alloc: Global, kind: [u8; 2], address: Ip4, hardware: &[u8]) -> Result<Bytes, NoMemory> {
    let mut bytes = Bytes::new(alloc);
    bytes.push_all(&[1, kind[0], kind[1], 0, 0x11, 0x22, 0x33, 0x44])?;
    bytes.push_all(&[0; 4])?;
    bytes.push_all(&address.0.to_be_bytes())?;
    bytes.push_all(&[0; 8])?;
    bytes.push_all(&RELAY.0.to_be_bytes())?;
    bytes.push_all(hardware)?;
    bytes.push_all(&[0; 202])?;
    bytes.push_all(&[99, 130, 83, 99, 53, 1, 10, 255])?;
    Ok(bytes)
}

// Which of the two answers is asked for.
#[derive(Clone, Copy)]
enum By {
    Keeper,
    Runs,
}

fn step_by(alloc: Global, by: By, datagram: &Bytes) -> Result<QueryStep, KeepErr> {
    let Ok(q) = query_or_message(datagram.as_slice()) else {
        return Err(KeepErr::Failed);
    };
    let now = Moment(AT.0 + 400);
    let mut keeper = leased_keeper(alloc)?;
    match by {
        By::Keeper => reply(alloc, &mut keeper, now, &q),
        By::Runs => {
            let runs = FreeRuns::of(alloc, &mut keeper)?;
            reply_by(alloc, &mut keeper, &runs, now, &q)
        }
    }
}

// What is tested of an answer: its word, to whom it goes, how long it is, and the 16 bytes of its
// first options.
#[derive(Clone, Copy, PartialEq, Eq)]
struct Summary {
    word: QueryWord,
    to: Option<Peer>,
    len: usize,
    options: [u8; 16],
}

// The first 16 bytes behind the fixed part and the cookie.
fn options_of(bytes: &Bytes) -> [u8; 16] {
    let mut options = [0; 16];
    for place in 0..16 {
        if let Some(byte) = bytes.as_slice().get(240 + place) {
            options[place] = *byte;
        }
    }
    options
}

fn summary_of(step: &QueryStep) -> Summary {
    let mut summary = Summary {
        word: step.word,
        to: None,
        len: 0,
        options: [0; 16],
    };
    if let Some(Sent::Datagram { to, bytes, .. }) = &step.reply {
        summary.to = Some(*to);
        summary.len = bytes.len();
        summary.options = options_of(bytes);
    }
    summary
}

fn by_address(alloc: Global, by: By, address: Ip4) -> Result<Summary, KeepErr> {
    let datagram = query(alloc, [0, 0], address, &[0; 6])?;
    Ok(summary_of(&step_by(alloc, by, &datagram)?))
}

fn by_modem(alloc: Global, by: By) -> Result<Summary, KeepErr> {
    let datagram = query(alloc, [1, 6], Ip4(0), &MODEM.0)?;
    Ok(summary_of(&step_by(alloc, by, &datagram)?))
}

const TO_RELAY: Option<Peer> = Some(Peer {
    ip: RELAY,
    port: 67,
});

// 86,000 seconds are left.
const ACTIVE: Summary = Summary {
    word: QueryWord::Active,
    to: TO_RELAY,
    len: 300,
    options: [53, 1, 13, 54, 4, 10, 0, 0, 2, 51, 4, 0, 1, 0x4f, 0xf0, 255],
};

const UNASSIGNED: Summary = Summary {
    word: QueryWord::Unassigned,
    to: TO_RELAY,
    len: 300,
    options: [53, 1, 11, 54, 4, 10, 0, 0, 2, 255, 0, 0, 0, 0, 0, 0],
};

#[test]
fn both_answers_are_one(rt: HostRuntime) -> Result<(), Fail> {
    for by in [By::Keeper, By::Runs] {
        assert!(rt; by_address(rt.alloc(), by, HELD) == Ok(ACTIVE));
        assert!(rt; by_modem(rt.alloc(), by) == Ok(ACTIVE));
        assert!(rt; by_address(rt.alloc(), by, FREE) == Ok(UNASSIGNED));
    }
    Ok(())
}
