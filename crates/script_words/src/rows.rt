use crate::line::{Line, Unread};
use crate::trees::read_settings_of;
use off_base::{Bytes, Ip4, Secret};
use off_defs::{
    Batch, Class, DeviceHold, DeviceLease, Hold, ImportKind, Key, Lease, Modem, Pool, Row,
    SharedSettings, Site, Subscriber,
};
use std::alloc::Global;

/// Reads a key: the word of its kind, and then its numbers or its address.
pub fn read_key(line: &mut Line<'_>) -> Result<Key, Unread> {
    match line.word() {
        b"site" => Ok(Key::Site),
        b"subscriber" => Ok(Key::Subscriber(line.count()?)),
        b"add-on" => Ok(Key::AddOn(line.count()?, line.byte()?)),
        b"modem" => Ok(Key::Modem(line.mac()?)),
        b"class" => Ok(Key::Class(line.count()?)),
        b"pool" => Ok(Key::Pool(line.count()?)),
        b"lease" => Ok(Key::Lease(line.address()?)),
        b"held" => Ok(Key::Held(line.mac()?)),
        b"batch" => Ok(Key::Batch(line.number(u64::MAX)?)),
        b"hub" => Ok(Key::Hub(line.count()?)),
        b"pool-hub" => Ok(Key::PoolHub(line.count()?)),
        b"device-pool" => Ok(Key::DevicePool(line.count()?)),
        b"device" => Ok(Key::Device(line.address()?)),
        _ => Err(Unread::Words),
    }
}

/// Reads the row of a key, of the key's kind.
pub fn read_row(alloc: Global, key: Key, line: &mut Line<'_>) -> Result<Row, Unread> {
    match key {
        Key::Site => Ok(Row::Site(site(alloc, line)?)),
        Key::Subscriber(_) => Ok(Row::Subscriber(subscriber(alloc, line)?)),
        Key::AddOn(_, _) => Ok(Row::AddOn(SharedSettings::new(
            alloc,
            read_settings_of(alloc, line)?,
        )?)),
        Key::Modem(_) => Ok(Row::Modem(modem(alloc, line)?)),
        Key::Class(_) => Ok(Row::Class(class(alloc, line)?)),
        Key::Pool(_) => Ok(Row::Pool(pool(line)?)),
        Key::Lease(_) => Ok(Row::Lease(lease(line)?)),
        Key::Held(_) => Ok(Row::Held(line.address()?)),
        Key::Batch(_) => Ok(Row::Batch(batch(alloc, line)?)),
        Key::Hub(_) => Ok(Row::Site(site(alloc, line)?)),
        Key::PoolHub(_) => Ok(Row::PoolHub(line.count()?)),
        Key::DevicePool(_) => Ok(Row::Pool(pool(line)?)),
        Key::Device(_) => Ok(Row::Device(device(line)?)),
    }
}

// The server, the secret in hexadecimal, the offset, the time of a lease, and where logs are sent.
fn site(alloc: Global, line: &mut Line<'_>) -> Result<Site, Unread> {
    let server = line.address()?;
    let secret = secret(alloc, line)?;
    Ok(Site {
        server,
        secret,
        offset: line.signed()?,
        lease: line.count()?,
        log: line.address()?,
    })
}

fn secret(alloc: Global, line: &mut Line<'_>) -> Result<Secret, Unread> {
    let mut bytes = Bytes::new(alloc);
    line.hex(alloc, &mut bytes)?;
    Secret::read(bytes.as_slice()).ok_or(Unread::Words)
}

// `active` or `suspended`, how many devices, and the name.
fn subscriber(alloc: Global, line: &mut Line<'_>) -> Result<Subscriber, Unread> {
    let active = line.word() == b"active".as_slice();
    Ok(Subscriber {
        active,
        cpes: line.byte()?,
        name: line.short(alloc)?,
    })
}

// The subscriber, the class, and the serial number.
fn modem(alloc: Global, line: &mut Line<'_>) -> Result<Modem, Unread> {
    Ok(Modem {
        subscriber: line.count()?,
        class: line.count()?,
        serial: line.short(alloc)?,
    })
}

// The name and the settings.
fn class(alloc: Global, line: &mut Line<'_>) -> Result<Class, Unread> {
    let name = line.short(alloc)?;
    Ok(Class {
        name,
        settings: SharedSettings::new(alloc, read_settings_of(alloc, line)?)?,
    })
}

// The first and the last address, the prefix, the router and the relay.
fn pool(line: &mut Line<'_>) -> Result<Pool, Unread> {
    Ok(Pool {
        first: line.address()?,
        last: line.address()?,
        prefix: line.byte()?,
        router: line.address()?,
        relay: line.address()?,
    })
}

// `offered` or `bound` and to whom, or `declined`; and when it expires.
fn lease(line: &mut Line<'_>) -> Result<Lease, Unread> {
    let hold = match line.word() {
        b"offered" => Hold::Offered(line.mac()?),
        b"bound" => Hold::Bound(line.mac()?),
        b"declined" => Hold::Declined,
        _ => return Err(Unread::Words),
    };
    Ok(Lease {
        hold,
        expiry: line.moment()?,
    })
}

// `offered` or `bound`, the modem and the device, or `declined`, and the moment at which it ends.
fn device(line: &mut Line<'_>) -> Result<DeviceLease, Unread> {
    let hold = match line.word() {
        b"offered" => DeviceHold::Offered(line.mac()?, line.mac()?),
        b"bound" => DeviceHold::Bound(line.mac()?, line.mac()?),
        b"declined" => DeviceHold::Declined,
        _ => return Err(Unread::Words),
    };
    Ok(DeviceLease {
        hold,
        expiry: line.moment()?,
    })
}

// `subscribers` or `modems`, how many rows, and the digest.
fn batch(alloc: Global, line: &mut Line<'_>) -> Result<Batch, Unread> {
    let kind = match line.word() {
        b"subscribers" => ImportKind::Subscribers,
        b"modems" => ImportKind::Modems,
        _ => return Err(Unread::Words),
    };
    let rows = line.count()?;
    Ok(Batch {
        kind,
        digest: digest(alloc, line)?,
        rows,
    })
}

fn digest(alloc: Global, line: &mut Line<'_>) -> Result<[u8; 16], Unread> {
    let mut bytes = Bytes::new(alloc);
    line.hex(alloc, &mut bytes)?;
    let mut digest = [0; 16];
    if bytes.len() != 16 {
        return Err(Unread::Words);
    }
    digest.copy_from_slice(bytes.as_slice());
    Ok(digest)
}

// A row that isn't of the key's kind.
pub fn stranger(key: Key) -> Row {
    match key {
        Key::Held(_) => Row::Batch(Batch {
            kind: ImportKind::Modems,
            digest: [0; 16],
            rows: 2,
        }),
        _ => Row::Held(Ip4(0x0a40_000a)),
    }
}
