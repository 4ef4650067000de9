use crate::page::Page;
use crate::trees::show_settings;
use off_base::NoMemory;
use off_defs::{
    Batch, Class, DeviceHold, DeviceLease, Hold, ImportKind, Key, Lease, Modem, Pool, Row, Site,
    Subscriber, key_text,
};
use off_orders::ShownRow;

/// Prints a key: its kind, and then its numbers or its address.
pub fn show_key(page: &mut Page, key: &Key) -> Result<(), NoMemory> {
    page.raw(key_text(key).as_slice())
}

/// Prints a row behind its key, as a script writes it.
pub fn show_row(page: &mut Page, key: &Key, row: &Row) -> Result<(), NoMemory> {
    page.raw(key_text(key).as_slice())?;
    match row {
        Row::Site(site) => show_site(page, site),
        Row::Subscriber(subscriber) => show_subscriber(page, subscriber),
        Row::AddOn(settings) => show_settings(page, settings.as_settings()),
        Row::Modem(modem) => show_modem(page, modem),
        Row::Class(class) => show_class(page, class),
        Row::Pool(pool) => show_pool(page, pool),
        Row::Lease(lease) => show_lease(page, lease),
        Row::Held(address) => {
            page.text(" ")?;
            page.address(*address)
        }
        Row::Batch(batch) => show_batch(page, batch),
        Row::PoolHub(hub) => spaced(page, u64::from(*hub)),
        Row::Device(lease) => show_device(page, lease),
    }
}

/// Prints the key of a row and the row, as a clerk is shown it.
pub fn show_seen(page: &mut Page, key: &Key, row: &ShownRow) -> Result<(), NoMemory> {
    page.raw(key_text(key).as_slice())?;
    match row {
        ShownRow::Site(site) => show_site(page, site),
        ShownRow::Subscriber(subscriber) => show_subscriber(page, subscriber),
        ShownRow::AddOn(settings) => show_settings(page, settings.as_settings()),
        ShownRow::Modem(modem) => show_modem(page, modem),
        ShownRow::Class(class) => show_class(page, class),
        ShownRow::Pool(pool) => show_pool(page, pool),
        ShownRow::Lease(lease) => show_lease(page, lease),
    }
}

/// Prints a pool as a clerk is shown it: its key, its row, and the number of its hub.
pub fn show_seen_pool(page: &mut Page, number: u32, pool: &Pool, hub: u32) -> Result<(), NoMemory> {
    show_key(page, &Key::Pool(number))?;
    show_pool(page, pool)?;
    spaced(page, u64::from(hub))
}

fn spaced(page: &mut Page, number: u64) -> Result<(), NoMemory> {
    page.text(" ")?;
    page.number(number)
}

fn named(page: &mut Page, name: &[u8]) -> Result<(), NoMemory> {
    page.text(" \"")?;
    page.escaped(name)?;
    page.text("\"")
}

fn show_site(page: &mut Page, site: &Site) -> Result<(), NoMemory> {
    page.text(" ")?;
    page.address(site.server)?;
    page.text(" ")?;
    page.hex(site.secret.as_slice())?;
    page.text(if site.offset < 0 { " -" } else { " " })?;
    page.number(u64::from(site.offset.unsigned_abs()))?;
    spaced(page, u64::from(site.lease))?;
    page.text(" ")?;
    page.address(site.log)
}

fn show_subscriber(page: &mut Page, subscriber: &Subscriber) -> Result<(), NoMemory> {
    page.text(if subscriber.active {
        " active"
    } else {
        " suspended"
    })?;
    spaced(page, u64::from(subscriber.cpes))?;
    named(page, subscriber.name.as_slice())
}

fn show_modem(page: &mut Page, modem: &Modem) -> Result<(), NoMemory> {
    spaced(page, u64::from(modem.subscriber))?;
    spaced(page, u64::from(modem.class))?;
    named(page, modem.serial.as_slice())
}

fn show_class(page: &mut Page, class: &Class) -> Result<(), NoMemory> {
    named(page, class.name.as_slice())?;
    show_settings(page, class.settings.as_settings())
}

fn show_pool(page: &mut Page, pool: &Pool) -> Result<(), NoMemory> {
    page.text(" ")?;
    page.address(pool.first)?;
    page.text(" ")?;
    page.address(pool.last)?;
    spaced(page, u64::from(pool.prefix))?;
    page.text(" ")?;
    page.address(pool.router)?;
    page.text(" ")?;
    page.address(pool.relay)
}

fn show_lease(page: &mut Page, lease: &Lease) -> Result<(), NoMemory> {
    match lease.hold {
        Hold::Offered(mac) => {
            page.text(" offered ")?;
            page.mac(mac)?;
        }
        Hold::Bound(mac) => {
            page.text(" bound ")?;
            page.mac(mac)?;
        }
        Hold::Declined => page.text(" declined")?,
    }
    spaced(page, lease.expiry.0)
}

fn show_device(page: &mut Page, lease: &DeviceLease) -> Result<(), NoMemory> {
    match lease.hold {
        DeviceHold::Offered(modem, owner) => {
            page.text(" offered ")?;
            page.mac(modem)?;
            page.text(" ")?;
            page.mac(owner)?;
        }
        DeviceHold::Bound(modem, owner) => {
            page.text(" bound ")?;
            page.mac(modem)?;
            page.text(" ")?;
            page.mac(owner)?;
        }
        DeviceHold::Declined => page.text(" declined")?,
    }
    spaced(page, lease.expiry.0)
}

fn show_batch(page: &mut Page, batch: &Batch) -> Result<(), NoMemory> {
    page.text(match batch.kind {
        ImportKind::Subscribers => " subscribers",
        ImportKind::Modems => " modems",
    })?;
    spaced(page, u64::from(batch.rows))?;
    page.text(" ")?;
    page.hex(&batch.digest)
}
