//! A device's message, over the keeper alone and by what is kept of the tables.

use crate::desk::OFFICE;
use off_asking::Asked;
use off_base::{Bytes, Ip4, Moment, NoMemory, Peer};
use off_behind::Devices;
use off_cpe::{DeviceAnswer, DeviceStep, DeviceWord, Known, answer, answer_by};
use off_defs::{Sent, Writes};
use off_device_runs::DeviceRuns;
use off_dhcp::Message;
use off_keepmem::MemKeeper;
use off_outside::{Calls, KeepErr, Keeper};
use off_runs::FreeRuns;
use script_words::{Line, read_write};
use std::alloc::Global;
use std::test::Fail;

const AT: Moment = Moment(1_700_000_000);

const RELAY: Ip4 = Ip4(0x0a80_0001);

// The modem is online, and there is a pool for its devices.
const ONLINE: &str = "lease 10.64.0.10 bound 02aabbccddee t+86400
held 02aabbccddee 10.64.0.10
device-pool 1 10.128.0.10 10.128.0.20 24 10.128.0.1 10.128.0.1";

const FIRST: &str = "device 10.128.0.10 offered 02aabbccddee 0200000000a1 t+120";

const SECOND: &str = "device 10.128.0.11 bound 02aabbccddee 0200000000a2 t+120";

fn push_rows(alloc: Global, writes: &mut Writes, rows: &str) -> Result<(), KeepErr> {
    for row in rows.split('\n') {
        match read_write(alloc, &mut Line::over(row.as_bytes())) {
            Ok(write) => writes.push(write)?,
            Err(_unread) => return Err(KeepErr::Failed),
        }
    }
    Ok(())
}

// A keeper of the office.
fn keeper_of(alloc: Global, more: &[&str]) -> Result<MemKeeper, KeepErr> {
    let mut writes = Writes::new(alloc);
    push_rows(alloc, &mut writes, OFFICE)?;
    push_rows(alloc, &mut writes, ONLINE)?;
    for rows in more {
        push_rows(alloc, &mut writes, rows)?;
    }
    let mut keeper = MemKeeper::new(alloc, Calls::new(alloc));
    keeper.commit(alloc, &writes)?;
    Ok(keeper)
}

// A DISCOVER through the relay, which names a modem (RFC 3046, section 3.2).
fn discover(alloc: Global, sender: [u8; 6], modem: [u8; 6]) -> Result<Bytes, NoMemory> {
    let mut bytes = Bytes::new(alloc);
    bytes.push_all(&[1, 1, 6, 0, 0x11, 0x22, 0x33, 0x44])?;
    bytes.push_all(&[0; 16])?;
    bytes.push_all(&RELAY.0.to_be_bytes())?;
    bytes.push_all(&sender)?;
    bytes.push_all(&[0; 202])?;
    bytes.push_all(&[99, 130, 83, 99, 53, 1, 1, 82, 14, 1, 4, 128, 0, 0, 1, 2, 6])?;
    bytes.push_all(&modem)?;
    bytes.push_all(&[255])?;
    Ok(bytes)
}

const MODEM: [u8; 6] = [0x02, 0xaa, 0xbb, 0xcc, 0xdd, 0xee];

fn device(last: u8) -> [u8; 6] {
    [2, 0, 0, 0, 0, last]
}

// What is tested of an answer: its word, how many rows it writes, to whom it goes, how long it is,
// and the address that it gives (RFC 2131: yiaddr).
#[derive(Clone, Copy, PartialEq, Eq)]
struct Summary {
    word: DeviceWord,
    writes: usize,
    to: Option<Peer>,
    len: usize,
    given: [u8; 4],
}

fn given_by(bytes: &Bytes) -> [u8; 4] {
    let mut given = [0; 4];
    for place in 0..4 {
        if let Some(byte) = bytes.as_slice().get(16 + place) {
            given[place] = *byte;
        }
    }
    given
}

fn summary_of(step: &DeviceStep) -> Summary {
    let mut summary = Summary {
        word: step.word,
        writes: step.writes.len(),
        to: None,
        len: 0,
        given: [0; 4],
    };
    if let Some(Sent::Datagram { to, bytes, .. }) = &step.reply {
        summary.to = Some(*to);
        summary.len = bytes.len();
        summary.given = given_by(bytes);
    }
    summary
}

// Which of the two answers is asked for.
#[derive(Clone, Copy)]
enum By {
    Keeper,
    Index,
}

fn answered(
    alloc: Global,
    by: By,
    more: &[&str],
    datagram: &Bytes,
) -> Result<Option<Summary>, KeepErr> {
    let Ok(m) = Message::read(datagram.as_slice()) else {
        return Err(KeepErr::Failed);
    };
    let mut keeper = keeper_of(alloc, more)?;
    let step = match by {
        By::Keeper => answer(alloc, &mut keeper, AT, &m)?,
        By::Index => answer_by_index(alloc, &mut keeper, &m)?,
    };
    Ok(match &step {
        Some(step) => Some(summary_of(step)),
        None => None,
    })
}

// The answer by what is kept of the keeper's tables.
fn answer_by_index(
    alloc: Global,
    keeper: &mut MemKeeper,
    m: &Message<'_>,
) -> Result<Option<DeviceStep>, KeepErr> {
    let index = Devices::of(alloc, keeper)?;
    let mut pools = DeviceRuns::of(alloc, keeper)?;
    let mut modems = FreeRuns::of(alloc, keeper)?;
    pools.pass(AT);
    modems.pass(AT);
    let known = Known {
        devices: &index,
        pools: &pools,
        modems: &modems,
    };
    Ok(step_of(answer_by(alloc, keeper, &known, AT, &Asked::of(m))?))
}

fn step_of(answer: Option<DeviceAnswer>) -> Option<DeviceStep> {
    match answer {
        Some(DeviceAnswer { step, own: _ }) => Some(step),
        None => None,
    }
}

// What a DISCOVER of a device behind the modem is answered.
fn discovers(alloc: Global, by: By, more: &[&str], last: u8) -> Result<Option<Summary>, KeepErr> {
    let datagram = discover(alloc, device(last), MODEM)?;
    answered(alloc, by, more, &datagram)
}

// What the modem's own is answered.
fn own_discover(alloc: Global, by: By) -> Result<Option<Summary>, KeepErr> {
    let datagram = discover(alloc, MODEM, MODEM)?;
    answered(alloc, by, &[FIRST], &datagram)
}

fn offer_of(last: u8) -> Option<Summary> {
    Some(Summary {
        word: DeviceWord::Offer,
        writes: 1,
        to: Some(Peer {
            ip: RELAY,
            port: 67,
        }),
        len: 308,
        given: [10, 128, 0, last],
    })
}

const LIMIT: Option<Summary> = Some(Summary {
    word: DeviceWord::Limit,
    writes: 0,
    to: None,
    len: 0,
    given: [0; 4],
});

// Two devices are offered the least free addresses, and there is no third; the modem's own message
// is no device's.
#[test]
fn both_answers_are_one(rt: HostRuntime) -> Result<(), Fail> {
    for by in [By::Keeper, By::Index] {
        assert!(rt; discovers(rt.alloc(), by, &[], 0xa1) == Ok(offer_of(10)));
        assert!(rt; discovers(rt.alloc(), by, &[FIRST], 0xa1) == Ok(offer_of(10)));
        assert!(rt; discovers(rt.alloc(), by, &[FIRST], 0xa2) == Ok(offer_of(11)));
        assert!(rt; discovers(rt.alloc(), by, &[FIRST, SECOND], 0xa3) == Ok(LIMIT));
        assert!(rt; own_discover(rt.alloc(), by) == Ok(None));
    }
    Ok(())
}
