ghost use Rattle.std.specs.Prelude.{◌≡◌, ◌++◌, codes, decimal, IfOk, OnOk};
ghost use Rattle.off_orders.specs.declared.shown.ShownRow.TheVariants as row;
ghost use Rattle.off_clerk_rules.specs.Replies.{reply_text, row_text, pool_text, rest_of_pool};
ghost use Rattle.off_clerk_rules.specs.Replies.{owner_text, state_text};

use crate::arrays::push_settings;
use crate::texts::{push_address, push_flag, push_mac, push_number, push_signed, push_text};
use off_base::{Bytes, NoMemory, Settings};
use off_defs::{Class, Hold, Lease, Modem, Pool, Site, Subscriber};
use off_orders::{Reply, ShownRow};
use std::alloc::Global;

/// The reply as a JSON object (RFC 8259) without white space, its keys in ascending order:
/// `{"ok":true}`, the number of an import's rows, or the fields of a row. A hub's secret isn't
/// shown.
///
/// The only error is want of memory.
pub fn reply_json(alloc: Global, r: &Reply) -> Result<Bytes, NoMemory>
    ensures { IfOk result (λ text. text ≡ reply_text r.now) }
{
    match r {
        Reply::Done => done_json(alloc),
        Reply::Shown(_, row) => row_json(alloc, row),
        Reply::ShownPool { row, hub, .. } => pool_json(alloc, row, *hub),
        Reply::Rows(count) => count_json(alloc, *count),
    }
}

fn done_json(alloc: Global) -> Result<Bytes, NoMemory>
    ensures { IfOk result (λ text. text ≡ codes "{\"ok\":true}") }
{
    let mut text = Bytes::new(alloc);
    text.push_all(b"{\"ok\":true}")?;
    Ok(text)
}

fn count_json(alloc: Global, count: u32) -> Result<Bytes, NoMemory>
    ensures { IfOk result (λ text. text ≡ codes "{\"rows\":" ++ decimal count ++ codes "}") }
{
    let mut text = Bytes::new(alloc);
    text.push_all(b"{\"rows\":")?;
    push_number(&mut text, u64::from(count))?;
    text.push_all(b"}")?;
    Ok(text)
}

fn row_json(alloc: Global, row: &ShownRow) -> Result<Bytes, NoMemory>
    ensures { IfOk result (λ text. text ≡ row_text row.now) }
{
    match row {
        ShownRow::Site(site) => site_json(alloc, site),
        ShownRow::Subscriber(subscriber) => subscriber_json(alloc, subscriber),
        ShownRow::AddOn(settings) => add_on_json(alloc, settings.as_settings()),
        ShownRow::Modem(modem) => modem_json(alloc, modem),
        ShownRow::Class(class) => class_json(alloc, class),
        ShownRow::Pool(pool) => lone_pool_json(alloc, pool),
        ShownRow::Lease(lease) => lease_json(alloc, lease),
    }
}

fn site_json(alloc: Global, site: &Site) -> Result<Bytes, NoMemory>
    ensures { IfOk result (λ text. text ≡ row_text (row.Site site.now)) }
{
    let mut text = Bytes::new(alloc);
    text.push_all(b"{\"lease\":")?;
    push_number(&mut text, u64::from(site.lease))?;
    text.push_all(b",\"log\":\"")?;
    push_address(&mut text, site.log)?;
    text.push_all(b"\",\"offset\":")?;
    push_signed(&mut text, site.offset)?;
    text.push_all(b",\"server\":\"")?;
    push_address(&mut text, site.server)?;
    text.push_all(b"\"}")?;
    Ok(text)
}

fn subscriber_json(alloc: Global, subscriber: &Subscriber) -> Result<Bytes, NoMemory>
    ensures { IfOk result (λ text. text ≡ row_text (row.Subscriber subscriber.now)) }
{
    let mut text = Bytes::new(alloc);
    text.push_all(b"{\"active\":")?;
    push_flag(&mut text, subscriber.active)?;
    text.push_all(b",\"cpes\":")?;
    push_number(&mut text, u64::from(subscriber.cpes))?;
    text.push_all(b",\"name\":")?;
    push_text(alloc, &mut text, &subscriber.name)?;
    text.push_all(b"}")?;
    Ok(text)
}

fn add_on_json(alloc: Global, settings: &Settings) -> Result<Bytes, NoMemory>
    ensures { IfOk result (λ text. text ≡ row_text (row.AddOn settings.now)) }
{
    let mut text = Bytes::new(alloc);
    text.push_all(b"{\"settings\":")?;
    push_settings(alloc, &mut text, settings)?;
    text.push_all(b"}")?;
    Ok(text)
}

fn modem_json(alloc: Global, modem: &Modem) -> Result<Bytes, NoMemory>
    ensures { IfOk result (λ text. text ≡ row_text (row.Modem modem.now)) }
{
    let mut text = Bytes::new(alloc);
    text.push_all(b"{\"class\":")?;
    push_number(&mut text, u64::from(modem.class))?;
    text.push_all(b",\"serial\":")?;
    push_text(alloc, &mut text, &modem.serial)?;
    text.push_all(b",\"subscriber\":")?;
    push_number(&mut text, u64::from(modem.subscriber))?;
    text.push_all(b"}")?;
    Ok(text)
}

fn class_json(alloc: Global, class: &Class) -> Result<Bytes, NoMemory>
    ensures { IfOk result (λ text. text ≡ row_text (row.Class class.now)) }
{
    let mut text = Bytes::new(alloc);
    text.push_all(b"{\"name\":")?;
    push_text(alloc, &mut text, &class.name)?;
    text.push_all(b",\"settings\":")?;
    push_settings(alloc, &mut text, class.settings.as_settings())?;
    text.push_all(b"}")?;
    Ok(text)
}

fn pool_json(alloc: Global, pool: &Pool, hub: u32) -> Result<Bytes, NoMemory>
    ensures { IfOk result (λ text. text ≡ pool_text pool.now hub) }
{
    let mut text = Bytes::new(alloc);
    text.push_all(b"{\"first\":\"")?;
    push_address(&mut text, pool.first)?;
    text.push_all(b"\",\"hub\":")?;
    push_number(&mut text, u64::from(hub))?;
    push_rest_of_pool(&mut text, pool)?;
    Ok(text)
}

// Without its hub.
fn lone_pool_json(alloc: Global, pool: &Pool) -> Result<Bytes, NoMemory>
    ensures { IfOk result (λ text. text ≡ row_text (row.Pool pool.now)) }
{
    let mut text = Bytes::new(alloc);
    text.push_all(b"{\"first\":\"")?;
    push_address(&mut text, pool.first)?;
    text.push_all(b"\"")?;
    push_rest_of_pool(&mut text, pool)?;
    Ok(text)
}

fn push_rest_of_pool(text: &mut Bytes, pool: &Pool) -> Result<(), NoMemory>
    ensures { OnOk result (text.new ≡ text.old ++ rest_of_pool pool.now) }
{
    text.push_all(b",\"last\":\"")?;
    push_address(text, pool.last)?;
    text.push_all(b"\",\"prefix\":")?;
    push_number(text, u64::from(pool.prefix))?;
    text.push_all(b",\"relay\":\"")?;
    push_address(text, pool.relay)?;
    text.push_all(b"\",\"router\":\"")?;
    push_address(text, pool.router)?;
    text.push_all(b"\"}")
}

fn lease_json(alloc: Global, lease: &Lease) -> Result<Bytes, NoMemory>
    ensures { IfOk result (λ text. text ≡ row_text (row.Lease lease.now)) }
{
    let mut text = Bytes::new(alloc);
    text.push_all(b"{\"expiry\":")?;
    push_number(&mut text, lease.expiry.0)?;
    text.push_all(b",\"owner\":\"")?;
    push_owner(&mut text, lease.hold)?;
    text.push_all(b"\",\"state\":\"")?;
    text.push_all(state(lease.hold))?;
    text.push_all(b"\"}")?;
    Ok(text)
}

fn push_owner(text: &mut Bytes, hold: Hold) -> Result<(), NoMemory>
    ensures { OnOk result (text.new ≡ text.old ++ owner_text hold) }
{
    match hold {
        Hold::Offered(owner) => push_mac(text, owner),
        Hold::Bound(owner) => push_mac(text, owner),
        Hold::Declined => text.push_all(b""),
    }
}

fn state(hold: Hold) -> &'static [u8]
    ensures { result.now ≡ state_text hold }
{
    match hold {
        Hold::Offered(_) => b"offered",
        Hold::Bound(_) => b"bound",
        Hold::Declined => b"declined",
    }
}
