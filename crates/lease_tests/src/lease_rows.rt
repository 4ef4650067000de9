//! An office with one hub, one pool and one modem, and the modem's DISCOVER.

use off_base::{Bytes, Ip4, Mac, Moment, NoMemory, Secret, Short};
use off_defs::{Key, Modem, Pool, Row, Site, Write, Writes};
use std::alloc::Global;

pub(crate) const AT: Moment = Moment(1_700_000_000);

pub(crate) const RELAY: Ip4 = Ip4(0x0a40_0001);

pub(crate) const MODEM: Mac = Mac([0x02, 0xaa, 0xbb, 0xcc, 0xdd, 0xee]);

const POOL: Pool = Pool {
    first: Ip4(0x0a40_000a),
    last: Ip4(0x0a40_0063),
    prefix: 24,
    router: RELAY,
    relay: RELAY,
};

/// The hub's row, where its secret is one.
pub(crate) fn site_row() -> Option<Row> {
    let secret = Secret::read(b"secret")?;
    Some(Row::Site(Site {
        server: Ip4(0x0a00_0002),
        secret,
        offset: 3600,
        lease: 86_400,
        log: Ip4(0),
    }))
}

/// The modem.
pub(crate) fn modem_row() -> Option<Row> {
    let Ok(serial) = Short::read(b"SN01") else {
        return None;
    };
    Some(Row::Modem(Modem {
        subscriber: 7,
        class: 1,
        serial,
    }))
}

/// The rows of the office.
pub(crate) fn office_rows(alloc: Global) -> Result<Writes, NoMemory> {
    let mut writes = Writes::new(alloc);
    if let Some(site) = site_row() {
        writes.push(Write::Put(Key::Hub(0), site))?;
    }
    if let Some(modem) = modem_row() {
        writes.push(Write::Put(Key::Modem(MODEM), modem))?;
    }
    writes.push(Write::Put(Key::Pool(1), Row::Pool(POOL)))?;
    Ok(writes)
}

/// A DISCOVER of the modem behind a relay, which asks for an address (option 50).
pub(crate) fn discover_by(alloc: Global, relay: Ip4, asked: Ip4) -> Result<Bytes, NoMemory> {
    let mut bytes = Bytes::new(alloc);
    bytes.push_all(&[1, 1, 6, 0, 0x11, 0x22, 0x33, 0x44])?;
    bytes.push_all(&[0; 16])?;
    bytes.push_all(&relay.0.to_be_bytes())?;
    bytes.push_all(&MODEM.0)?;
    bytes.push_all(&[0; 202])?;
    bytes.push_all(&[99, 130, 83, 99, 50, 4])?;
    bytes.push_all(&asked.0.to_be_bytes())?;
    push_options(&mut bytes)?;
    Ok(bytes)
}

// Options 53, 60, 43 in two pieces with a pad between them, and 82.
fn push_options(bytes: &mut Bytes) -> Result<(), NoMemory> {
    bytes.push_all(&[53, 1, 1, 60, 10])?;
    bytes.push_all(b"docsis3.1:")?;
    bytes.push_all(&[43, 5, 2, 3])?;
    bytes.push_all(b"ECM")?;
    bytes.push_all(&[0, 43, 6, 4, 4])?;
    bytes.push_all(b"SN01")?;
    bytes.push_all(&[82, 14, 1, 4, 128, 0, 0, 1, 2, 6])?;
    bytes.push_all(&MODEM.0)?;
    bytes.push_all(&[255])
}
