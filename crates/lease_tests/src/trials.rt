//! What a client's message does, beside the plain program of it: over random tables whose leases,
//! pools, hubs and modems change between messages, at moments that rise and fall; and over the boot
//! of one modem.

use crate::drafts::{Draft, Wish, draft_of, modem, some_draft, written};
use crate::free::{World, address, relay};
use crate::lease_rows::{MODEM, RELAY, office_rows};
use off_asking::Asked;
use off_base::{Ip4, Moment, NoMemory, Secret, Short};
use off_defs::{Hold, Key, Lease, Modem, Pool, Row, Sent, Site, Write, Writes};
use off_dhcp::Message;
use off_lease::answer;
use off_lease_rules::{DhcpWord, LeaseStep};
use off_outside::{KeepErr, Keeper};
use plain_leases::plain_answer;
use std::alloc::Global;
use std::test::Fail;

// Each word that a message may have.
const WORDS: [DhcpWord; 17] = [
    DhcpWord::Offer,
    DhcpWord::Ack,
    DhcpWord::Declined,
    DhcpWord::Released,
    DhcpWord::NotServed,
    DhcpWord::RequestForm,
    DhcpWord::PartCut,
    DhcpWord::RelayMismatch,
    DhcpWord::NotAModem,
    DhcpWord::NoRelayPool,
    DhcpWord::NoSite,
    DhcpWord::UnknownModem,
    DhcpWord::SerialMismatch,
    DhcpWord::OtherServer,
    DhcpWord::PoolFull,
    DhcpWord::NoRecord,
    DhcpWord::NotYourAddress,
];

// ---- two steps beside each other

fn is_same(one: &LeaseStep, other: &LeaseStep) -> bool {
    one.word == other.word
        && are_same_writes(&one.writes, &other.writes)
        && is_same_reply(&one.reply, &other.reply)
}

fn are_same_writes(one: &Writes, other: &Writes) -> bool {
    if one.len() != other.len() {
        return false;
    }
    for place in 0..one.len() {
        if !is_same_write(one.get(place), other.get(place)) {
            return false;
        }
    }
    true
}

// A message writes leases, and what modems hold, alone.
fn is_same_write(one: &Write, other: &Write) -> bool {
    match (one, other) {
        (Write::Put(key, Row::Lease(lease)), Write::Put(same, Row::Lease(put))) => {
            key == same && lease == put
        }
        (Write::Put(key, Row::Held(held)), Write::Put(same, Row::Held(put))) => {
            key == same && held == put
        }
        (Write::Drop(key), Write::Drop(same)) => key == same,
        _ => false,
    }
}

fn is_same_reply(one: &Option<Sent>, other: &Option<Sent>) -> bool {
    match (one, other) {
        (Some(sent), Some(same)) => is_same_datagram(sent, same),
        (None, None) => true,
        _ => false,
    }
}

fn is_same_datagram(one: &Sent, other: &Sent) -> bool {
    let Sent::Datagram { service, to, bytes } = one else {
        return false;
    };
    match other {
        Sent::Datagram {
            service: by,
            to: peer,
            bytes: same,
        } => service == by && to == peer && bytes.as_slice() == same.as_slice(),
        _ => false,
    }
}

// ---- random changes of hubs, modems and pools

fn site_row(number: u32, has_server: bool) -> Option<Row> {
    let secret = Secret::read(b"secret")?;
    let server = if has_server {
        Ip4(0x0a00_0002_u32.wrapping_add(number))
    } else {
        Ip4(0)
    };
    Some(Row::Site(Site {
        server,
        secret,
        offset: -3600,
        lease: 60,
        log: Ip4(number),
    }))
}

fn modem_row(serial: &[u8]) -> Option<Row> {
    let Ok(serial) = Short::read(serial) else {
        return None;
    };
    Some(Row::Modem(Modem {
        subscriber: 7,
        class: 1,
        serial,
    }))
}

// A pool of no address.
fn pool_row(number: u32) -> Row {
    Row::Pool(Pool {
        first: address(1, 0),
        last: address(0, 0),
        prefix: 20,
        router: relay(number),
        relay: relay(number),
    })
}

// Each address of a stretch rests for a while.
fn push_rest(writes: &mut Writes, stretch: u32, now: Moment) -> Result<(), NoMemory> {
    for place in 0..8 {
        let lease = Lease {
            hold: Hold::Declined,
            expiry: Moment(now.0.saturating_add(40)),
        };
        writes.push(Write::Put(Key::Lease(address(stretch, place)), Row::Lease(lease)))?;
    }
    Ok(())
}

// A hub is put anew, removed or put with no address of its own; a modem is put or removed, or holds
// another address; a pool is put that is none, or has no address free; or nothing happens.
fn changes(alloc: Global, world: &mut World) -> Result<Writes, NoMemory> {
    let mut writes = Writes::new(alloc);
    let number = world.some(3);
    let hub = Key::Hub(number);
    let client = modem(world.some(6));
    let held = address(world.some(3), world.some(8));
    match world.some(24) {
        0 => push_row(&mut writes, hub, site_row(world.some(3), false))?,
        1 => writes.push(Write::Drop(hub))?,
        2 | 3 | 4 | 5 | 6 => push_row(&mut writes, hub, site_row(world.some(3), true))?,
        7 => writes.push(Write::Drop(Key::Modem(client)))?,
        8 | 9 => push_row(&mut writes, Key::Modem(client), modem_row(b""))?,
        10 | 11 => push_row(&mut writes, Key::Modem(client), modem_row(b"SN01"))?,
        12 => push_row(&mut writes, Key::Modem(client), modem_row(b"SN02"))?,
        13 => writes.push(Write::Put(Key::Held(client), Row::Held(held)))?,
        14 => writes.push(Write::Drop(Key::Held(client)))?,
        15 => {
            let number = number.wrapping_add(1);
            writes.push(Write::Put(Key::Pool(number), pool_row(number)))?;
        }
        16 | 17 | 18 | 19 | 20 => push_rest(&mut writes, number, world.now)?,
        _ => {}
    }
    Ok(writes)
}

fn push_row(writes: &mut Writes, key: Key, row: Option<Row>) -> Result<(), NoMemory> {
    match row {
        Some(row) => writes.push(Write::Put(key, row)),
        None => Ok(()),
    }
}

// ---- messages that both answer

// How often each word came, and how many answers differed.
#[derive(Drop)]
struct Tally {
    words: [u32; 17],
    differing: u32,
}

impl Tally {
    fn new() -> Tally {
        Tally {
            words: [0; 17],
            differing: 0,
        }
    }

    fn take(&mut self, word: DhcpWord, is_same: bool) {
        if !is_same {
            self.differing = self.differing.saturating_add(1);
        }
        for place in 0..17 {
            if WORDS[place] == word {
                self.words[place] = self.words[place].saturating_add(1);
            }
        }
    }
}

// What `answer` says, once the plain program has said it too.
fn answered(
    alloc: Global,
    world: &mut World,
    tally: &mut Tally,
    draft: &Draft,
) -> Result<LeaseStep, KeepErr> {
    let bytes = written(alloc, draft)?;
    let Ok(m) = Message::read(bytes.as_slice()) else {
        return Err(KeepErr::Failed);
    };
    let asked = Asked::of(&m);
    let step = answer(
        alloc,
        &mut world.keeper,
        &world.runs,
        &mut world.key,
        world.now,
        &asked,
    )?;
    let plain = plain_answer(alloc, &mut world.keeper, world.now, &m)?;
    tally.take(step.word, is_same(&step, &plain));
    Ok(step)
}

// A message, whose writes are done as often as not.
fn exchange(alloc: Global, world: &mut World, tally: &mut Tally) -> Result<(), KeepErr> {
    let draft = some_draft(alloc, world)?;
    let step = answered(alloc, world, tally, &draft)?;
    if world.some(2) == 0 {
        world.take(alloc, &step.writes)?;
    }
    Ok(())
}

fn round(alloc: Global, world: &mut World, tally: &mut Tally) -> Result<(), KeepErr> {
    world.pass();
    world.commit(alloc)?;
    let writes = changes(alloc, world)?;
    world.take(alloc, &writes)?;
    for _message in 0..8 {
        exchange(alloc, world, tally)?;
    }
    Ok(())
}

// What comes of so many rounds.
fn tally_of(alloc: Global, rounds: u32) -> Result<Tally, KeepErr> {
    let mut tally = Tally::new();
    let mut world = World::new(alloc)?;
    for _round in 0..rounds {
        round(alloc, &mut world, &mut tally)?;
    }
    Ok(tally)
}

// ---- the boot of one modem

const SERVER: Ip4 = Ip4(0x0a00_0002);

// The least address of the pool, and the next one.
const FIRST: Ip4 = Ip4(0x0a40_000a);

const NEXT: Ip4 = Ip4(0x0a40_000b);

// The messages of a modem, the address that each is about, and what comes of it.
const BOOT: [(Wish, Ip4, DhcpWord); 14] = [
    (Wish::Select, FIRST, DhcpWord::NotYourAddress),
    (Wish::Discover, FIRST, DhcpWord::Offer),
    (Wish::Select, FIRST, DhcpWord::Ack),
    (Wish::Renew, FIRST, DhcpWord::Ack),
    (Wish::Rebind, FIRST, DhcpWord::Ack),
    (Wish::Reboot, FIRST, DhcpWord::Ack),
    (Wish::Discover, NEXT, DhcpWord::Offer),
    (Wish::Release, FIRST, DhcpWord::Released),
    (Wish::Reboot, FIRST, DhcpWord::NoRecord),
    (Wish::Discover, FIRST, DhcpWord::Offer),
    (Wish::Decline, FIRST, DhcpWord::Declined),
    (Wish::Discover, FIRST, DhcpWord::Offer),
    (Wish::Select, FIRST, DhcpWord::NotYourAddress),
    (Wish::Select, NEXT, DhcpWord::Ack),
];

// How many of these messages are answered otherwise by the plain program, and how many have another
// word.
fn booted(alloc: Global) -> Result<(u32, u32), KeepErr> {
    let mut world = World::over(alloc, &office_rows(alloc)?)?;
    let mut tally = Tally::new();
    let mut unlike: u32 = 0;
    for (wish, own, word) in BOOT {
        let draft = draft_of(wish, MODEM, own, RELAY, SERVER);
        let step = answered(alloc, &mut world, &mut tally, &draft)?;
        if step.word != word {
            unlike = unlike.saturating_add(1);
        }
        world.take(alloc, &step.writes)?;
    }
    Ok((tally.differing, unlike))
}

#[test]
fn a_plain_program_answers_the_same(rt: HostRuntime) -> Result<(), Fail> {
    assert!(rt; booted(rt.alloc()) == Ok((0, 0)));
    let tally = tally_of(rt.alloc(), 400)?;
    assert_eq!(rt; tally.differing, 0);
    for place in 0..17 {
        assert!(rt; 0 < tally.words[place], "word {place}");
    }
    Ok(())
}
