//! What is kept of pools, their hubs and free addresses, behind random writes and at moments that
//! rise and fall: each answer is the one that plain reading of the rows gives, and a DISCOVER is
//! offered the address that plain reading chooses.

ghost use Rattle.std.specs.Prelude.{◌≤◌};

use crate::lease_rows::{AT, MODEM, discover_by, modem_row, site_row};
use off_asking::Asked;
use off_base::{Ip4, Mac, Moment, NoMemory};
use off_defs::{Hold, Key, Lease, Pool, Row, Sent, Write, Writes};
use off_dhcp::Message;
use off_keepmem::MemKeeper;
use off_lease::answer;
use off_mic::HmacKey;
use off_outside::{Calls, KeepErr, Keeper};
use off_runs::FreeRuns;
use plain_leases::{choice_in, has, has_ended, held_in, hub_in, least_in};
use std::alloc::Global;
use std::test::Fail;

// 10.64.1.0: three stretches of eight addresses, each of which has one of three pools at most.
const BASE: u32 = 0x0a40_0100;

/// Tables with what is kept of them, and which stretch each pool has.
#[derive(Drop)]
pub(crate) struct World {
    pub(crate) keeper: MemKeeper,
    pub(crate) runs: FreeRuns,
    // By which files are named.
    pub(crate) key: HmacKey,
    pub(crate) now: Moment,
    homes: [u32; 3],
    seed: u64,
    // How many DISCOVERs were offered an address, and how many none.
    offered: u32,
    silent: u32,
}

// The next of numbers that look random (Knuth's MMIX).
fn next_seed(seed: u64) -> u64 {
    seed.wrapping_mul(6_364_136_223_846_793_005)
        .wrapping_add(1_442_695_040_888_963_407)
}

// A part of such a number, below `most`.
fn part(seed: u64, most: u32) -> u32
    ensures { result ≤ most }
{
    if most == 0 {
        return 0;
    }
    ((seed >> 33) % u64::from(most)) as u32
}

/// An address of a stretch.
pub(crate) fn address(stretch: u32, place: u32) -> Ip4 {
    Ip4(
        BASE.wrapping_add(stretch.wrapping_mul(8))
            .wrapping_add(place),
    )
}

/// The relay of a pool.
pub(crate) fn relay(number: u32) -> Ip4 {
    Ip4(0x0a40_0000_u32.wrapping_add(number))
}

// ---- random writes

// The pool is put with some of its stretch's addresses, which lose their leases, and with a hub.
fn push_pool(writes: &mut Writes, number: u32, stretch: u32, seed: u64) -> Result<(), NoMemory> {
    let pool = Pool {
        first: address(stretch, part(seed, 4)),
        last: address(stretch, part(next_seed(seed), 4).wrapping_add(4)),
        prefix: 20,
        router: relay(number),
        relay: relay(number),
    };
    writes.push(Write::Put(Key::Pool(number), Row::Pool(pool)))?;
    writes.push(hub_write(number, part(next_seed(next_seed(seed)), 3)))?;
    drop_leases(writes, stretch)
}

// A pool's row names its hub where it isn't the hub 0.
fn hub_write(number: u32, hub: u32) -> Write {
    let key = Key::PoolHub(number);
    if hub == 0 {
        Write::Drop(key)
    } else {
        Write::Put(key, Row::PoolHub(hub))
    }
}

// The pool is removed, with the row that names its hub.
fn drop_pool(writes: &mut Writes, number: u32) -> Result<(), NoMemory> {
    writes.push(Write::Drop(Key::Pool(number)))?;
    writes.push(Write::Drop(Key::PoolHub(number)))
}

fn drop_leases(writes: &mut Writes, stretch: u32) -> Result<(), NoMemory> {
    for place in 0..8 {
        writes.push(Write::Drop(Key::Lease(address(stretch, place))))?;
    }
    Ok(())
}

// Some leases of a stretch begin, end, or are others' from now on.
fn push_leases(writes: &mut Writes, stretch: u32, now: Moment, seed: u64) -> Result<(), NoMemory> {
    let mut seed = seed;
    for _write in 0..3 {
        seed = next_seed(seed);
        let key = Key::Lease(address(stretch, part(seed, 8)));
        seed = next_seed(seed);
        writes.push(lease_write(key, now, seed))?;
    }
    Ok(())
}

fn lease_write(key: Key, now: Moment, seed: u64) -> Write {
    let owner = Mac([2, 0, 0, 0, 0, part(seed, 9) as u8]);
    let hold = match part(next_seed(seed), 5) {
        0 => return Write::Drop(key),
        1 => Hold::Offered(owner),
        2 => Hold::Declined,
        _ => Hold::Bound(owner),
    };
    let lasts = u64::from(part(next_seed(next_seed(seed)), 40));
    Write::Put(
        key,
        Row::Lease(Lease {
            hold,
            expiry: Moment(now.0.wrapping_add(lasts)),
        }),
    )
}

// The modem holds an address of the stretch, or none.
fn push_held(writes: &mut Writes, stretch: u32, seed: u64) -> Result<(), NoMemory> {
    let key = Key::Held(MODEM);
    writes.push(match part(seed, 3) {
        0 => Write::Put(key, Row::Held(address(stretch, part(next_seed(seed), 8)))),
        _ => Write::Drop(key),
    })
}

impl World {
    /// Tables with three hubs and a modem, and no pools.
    pub(crate) fn new(alloc: Global) -> Result<World, KeepErr> {
        World::over(alloc, &first_rows(alloc)?)
    }

    /// Tables with these rows.
    pub(crate) fn over(alloc: Global, rows: &Writes) -> Result<World, KeepErr> {
        let mut keeper = MemKeeper::new(alloc, Calls::new(alloc));
        keeper.commit(alloc, rows)?;
        let mut runs = FreeRuns::of(alloc, &mut keeper)?;
        runs.pass(AT);
        Ok(World {
            keeper,
            runs,
            key: HmacKey::new(),
            now: AT,
            homes: [0, 1, 2],
            seed: 1,
            offered: 0,
            silent: 0,
        })
    }

    /// The next random number below `most`.
    pub(crate) fn some(&mut self, most: u32) -> u32 {
        self.seed = next_seed(self.seed);
        part(self.seed, most)
    }

    fn home(&self, number: u32) -> u32 {
        match number {
            1 => self.homes[0],
            2 => self.homes[1],
            _ => self.homes[2],
        }
    }

    // One commit: a pool is put anew, two pools trade their stretches, one is removed, or removed
    // and put again; or, mostly, leases change.
    fn writes(&mut self, alloc: Global) -> Result<Writes, NoMemory> {
        let mut writes = Writes::new(alloc);
        let number = self.some(3).wrapping_add(1);
        let kind = self.some(12);
        let seed = self.seed;
        match kind {
            0 => self.trade(&mut writes)?,
            1 => {
                drop_pool(&mut writes, number)?;
                drop_leases(&mut writes, self.home(number))?;
            }
            2 => {
                drop_pool(&mut writes, number)?;
                push_pool(&mut writes, number, self.home(number), seed)?;
            }
            3 | 4 => push_pool(&mut writes, number, self.home(number), seed)?,
            5 => push_held(&mut writes, self.home(number), seed)?,
            _ => push_leases(&mut writes, self.home(number), self.now, seed)?,
        }
        Ok(writes)
    }

    // The first two pools trade their stretches.
    fn trade(&mut self, writes: &mut Writes) -> Result<(), NoMemory> {
        self.homes = [self.homes[1], self.homes[0], self.homes[2]];
        let seed = self.seed;
        push_pool(writes, 1, self.homes[0], seed)?;
        push_pool(writes, 2, self.homes[1], next_seed(seed))
    }

    /// The moment goes on, and falls now and then.
    pub(crate) fn pass(&mut self) {
        let on = u64::from(self.some(9));
        let falls = self.some(10) == 0;
        self.now = Moment(if falls {
            self.now.0.saturating_sub(on)
        } else {
            self.now.0.wrapping_add(on)
        });
        self.runs.pass(self.now);
    }

    fn count(&mut self, is_offered: bool) {
        if is_offered {
            self.offered = self.offered.saturating_add(1);
        } else {
            self.silent = self.silent.saturating_add(1);
        }
    }

    /// Some random writes are done.
    pub(crate) fn commit(&mut self, alloc: Global) -> Result<(), KeepErr> {
        let writes = self.writes(alloc)?;
        self.take(alloc, &writes)
    }

    /// These writes are done.
    pub(crate) fn take(&mut self, alloc: Global, writes: &Writes) -> Result<(), KeepErr> {
        self.runs.ready(writes)?;
        self.keeper.commit(alloc, writes)?;
        self.runs.apply(writes);
        Ok(())
    }
}

fn first_rows(alloc: Global) -> Result<Writes, NoMemory> {
    let mut writes = Writes::new(alloc);
    for number in 0..3 {
        if let Some(site) = site_row() {
            writes.push(Write::Put(Key::Hub(number), site))?;
        }
    }
    if let Some(modem) = modem_row() {
        writes.push(Write::Put(Key::Modem(MODEM), modem))?;
    }
    Ok(writes)
}

// ---- plain reading

// The pool of a number.
fn pool_in(alloc: Global, keeper: &mut MemKeeper, number: u32) -> Result<Option<Pool>, KeepErr> {
    let row = keeper.get(alloc, &Key::Pool(number))?;
    Ok(match &row {
        Some(Row::Pool(pool)) => Some(*pool),
        _ => None,
    })
}

/// The number of the pool with the address, where one has it.
pub(crate) fn number_of(
    alloc: Global,
    keeper: &mut MemKeeper,
    at: Ip4,
) -> Result<Option<u32>, KeepErr> {
    for number in 1..4 {
        if let Some(pool) = pool_in(alloc, keeper, number)? {
            if has(&pool, at) {
                return Ok(Some(number));
            }
        }
    }
    Ok(None)
}

// The address that is offered for a DISCOVER: the one that the modem holds, where its pool has it;
// else the one that it asks for, where that is free; else the least that is free.
fn chosen(
    alloc: Global,
    keeper: &mut MemKeeper,
    now: Moment,
    number: u32,
    asked: Ip4,
) -> Result<Option<Ip4>, KeepErr> {
    let Some(pool) = pool_in(alloc, keeper, number)? else {
        return Ok(None);
    };
    let held = held_in(alloc, keeper, MODEM)?;
    choice_in(alloc, keeper, now, &pool, held, Some(asked))
}

// ---- both beside each other

// The address that `answer` offers.
fn offered(
    alloc: Global,
    world: &mut World,
    number: u32,
    asked: Ip4,
) -> Result<Option<Ip4>, KeepErr> {
    let bytes = discover_by(alloc, relay(number), asked)?;
    let Ok(message) = Message::read(bytes.as_slice()) else {
        return Err(KeepErr::Failed);
    };
    let asked = Asked::of(&message);
    let step = answer(
        alloc,
        &mut world.keeper,
        &world.runs,
        &mut world.key,
        world.now,
        &asked,
    )?;
    Ok(match &step.reply {
        Some(Sent::Datagram { bytes, .. }) => given(bytes.as_slice()),
        _ => None,
    })
}

// The address that a reply gives (RFC 2131: yiaddr).
fn given(reply: &[u8]) -> Option<Ip4> {
    let mut bytes = [0; 4];
    for place in 0..4 {
        bytes[place] = *reply.get(16 + place)?;
    }
    Some(Ip4(u32::from_be_bytes(bytes)))
}

// Whether pools, their hubs and addresses are told as plain reading finds them.
fn tells(alloc: Global, world: &mut World) -> Result<bool, KeepErr> {
    for number in 1..4 {
        let pool = pool_in(alloc, &mut world.keeper, number)?;
        let behind = pool.map(|_pool| number);
        let hub = hub_in(alloc, &mut world.keeper, number)?;
        if world.runs.hub_of(number) != pool.map(|_pool| hub) {
            return Ok(false);
        }
        let least = match &pool {
            Some(pool) => least_in(alloc, &mut world.keeper, world.now, pool)?,
            None => None,
        };
        if world.runs.by_relay(relay(number)) != behind || world.runs.least(number) != least {
            return Ok(false);
        }
    }
    tells_addresses(alloc, world)
}

fn tells_addresses(alloc: Global, world: &mut World) -> Result<bool, KeepErr> {
    for place in 0..26 {
        let at = address(0, place);
        let number = number_of(alloc, &mut world.keeper, at)?;
        let ended = has_ended(alloc, &mut world.keeper, world.now, at)?;
        let is_free = number.is_some() && ended;
        if world.runs.pool_of(at) != number || world.runs.is_free(at) != is_free {
            return Ok(false);
        }
    }
    Ok(true)
}

// Whether each pool's modem is offered the address that plain reading chooses.
fn offers(alloc: Global, world: &mut World) -> Result<bool, KeepErr> {
    for number in 1..4 {
        let asked = address(world.some(3), world.some(8));
        let chosen = chosen(alloc, &mut world.keeper, world.now, number, asked)?;
        if offered(alloc, world, number, asked)? != chosen {
            return Ok(false);
        }
        world.count(chosen.is_some());
    }
    Ok(true)
}

// Behind how many of so many commits something is told that plain reading doesn't find; and how
// many DISCOVERs were offered an address, and how many none.
fn disagreeing(alloc: Global, commits: u32) -> Result<(u32, u32, u32), KeepErr> {
    let mut world = World::new(alloc)?;
    let mut wrong: u32 = 0;
    for _commit in 0..commits {
        world.pass();
        world.commit(alloc)?;
        let agrees = tells(alloc, &mut world)? && offers(alloc, &mut world)?;
        if !agrees {
            wrong = wrong.wrapping_add(1);
        }
    }
    Ok((wrong, world.offered, world.silent))
}

#[test]
fn kept_addresses_are_those_of_the_rows(rt: HostRuntime) -> Result<(), Fail> {
    let (wrong, offered, silent) = disagreeing(rt.alloc(), 400)?;
    assert_eq!(rt; wrong, 0);
    assert!(rt; 100 < offered);
    assert!(rt; 10 < silent);
    Ok(())
}
