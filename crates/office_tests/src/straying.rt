use crate::silence::{Answers, Silent, unasked};
use off_asking::Asked;
use off_base::{Bytes, Ip4, Moment, NoMemory, Secret};
use off_defs::{Key, Pool, Row, Site, Writes};
use off_dhcp::Message;
use off_lease::answer;
use off_lease_rules::DhcpWord;
use off_mic::HmacKey;
use off_outside::KeepErr;
use off_runs::FreeRuns;
use std::alloc::Global;
use std::test::Fail;

const AT: Moment = Moment(1_700_000_000);

const RELAY: Ip4 = Ip4(0x0a40_0001);

// It has each hub; every other row that is asked for is of a wrong kind. Whatever the place, its
// next entry is a pool of the relay with one address too many, and each has the number below the
// last.
#[derive(Drop)]
struct Stray {
    number: u32,
}

impl Answers for Stray {
    fn row(&mut self, _alloc: Global, key: &Key, _commits: u64) -> Option<Option<Row>> {
        Some(match key {
            Key::Hub(_) => site_row(),
            _ => Some(Row::Held(Ip4(1))),
        })
    }

    fn entry(&mut self, _alloc: Global, _after: Option<&Key>) -> Option<Option<(Key, Row)>> {
        self.number = self.number.wrapping_sub(1);
        let row = Row::Pool(Pool {
            first: Ip4(1),
            last: Ip4(4097),
            prefix: 24,
            router: RELAY,
            relay: RELAY,
        });
        Some(Some((Key::Pool(self.number), row)))
    }

    fn write(&mut self, _alloc: Global, _writes: &Writes, _commits: u64) -> Option<()> {
        None
    }
}

fn site_row() -> Option<Row> {
    let secret = Secret::read(b"secret")?;
    Some(Row::Site(Site {
        server: Ip4(0x0a00_0002),
        secret,
        offset: 3600,
        lease: 86_400,
        log: Ip4(0),
    }))
}

// A DISCOVER of a modem behind the relay.
fn discover(alloc: Global) -> Result<Bytes, NoMemory> {
    let mut bytes = Bytes::new(alloc);
    bytes.push_all(&[1, 1, 6, 0, 0x11, 0x22, 0x33, 0x44])?;
    bytes.push_all(&[0; 16])?;
    bytes.push_all(&RELAY.0.to_be_bytes())?;
    bytes.push_all(&[0x02, 0xaa, 0xbb, 0xcc, 0xdd, 0xee])?;
    bytes.push_all(&[0; 202])?;
    bytes.push_all(&[99, 130, 83, 99, 53, 1, 1, 60, 10])?;
    bytes.push_all(b"docsis3.1:")?;
    bytes.push_all(&[255])?;
    Ok(bytes)
}

// The word of the answer, and how many calls that took, with those that read the pools and their
// hubs.
fn word_over(alloc: Global, keeper: &mut Silent<Stray>) -> Result<(DhcpWord, u64), KeepErr> {
    let Ok(datagram) = discover(alloc) else {
        return Err(KeepErr::Memory);
    };
    let Ok(m) = Message::read(datagram.as_slice()) else {
        return Err(KeepErr::Failed);
    };
    let mut runs = FreeRuns::of(alloc, keeper)?;
    runs.pass(AT);
    let mut key = HmacKey::new();
    let word = answer(alloc, keeper, &runs, &mut key, AT, &Asked::of(&m))?.word;
    Ok((word, keeper.calls))
}

#[test]
fn an_impossible_row_gives_no_lease(rt: HostRuntime) -> Result<(), Fail> {
    let mut keeper = unasked(Stray { number: 9 });
    let expected = (DhcpWord::NoRelayPool, 6);
    assert!(rt; word_over(rt.alloc(), &mut keeper) == Ok(expected));
    Ok(())
}
