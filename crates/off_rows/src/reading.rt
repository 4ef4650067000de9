ghost use Rattle.std.specs.Prelude.{◌≡◌, ℕ, [], ◌∷◌, ◌++◌, List, Err, MatchResult, IfOk};
ghost use Rattle.off_base.specs.Tree.{spelling as spelling_of};
ghost use Rattle.off_tlv.specs.Grammar.{in_file, AllStand};
ghost use Rattle.off_defs.specs.declared.keys.Key.TheVariants as key;
ghost use Rattle.off_defs.specs.declared.tables.Row.{Row};
ghost use Rattle.off_defs.specs.declared.tables.Row.TheVariants as row;
ghost use Rattle.off_rows.specs.RowBytes.{row_bytes, hold_bytes, RowRanged, SettingsStand};
ghost use Rattle.off_rows.specs.RowBytes.{OwnerIsMac, IsRowOf};
ghost use Rattle.off_rows.specs.BadRow.{Field, IsBadAt, bytes_of, hold_fields, site_fields};
ghost use Rattle.off_rows.specs.BadRow.{subscriber_fields, modem_fields};
ghost use Rattle.off_rows.specs.BadRow.{pool_fields, held_fields, batch_fields, pool_hub_fields};
ghost use Rattle.off_rows.specs.Reading.{WhyNoRow, GivesRow, BadIn, Passes, WhyNoAddOn, WhyNoClass};
ghost use Rattle.off_rows.specs.Reading.{IsSettings, from_start};
ghost use Rattle.off_rows.specs.declared.faults.RowErr.TheVariants.{BadRow};

use crate::devices::device;
use crate::faults::RowErr;
use crate::fields::Fields;
use off_base::{Bytes, Ip4, Moment, NoMemory};
use off_defs::{
    Batch, Class, Hold, Key, Lease, Modem, Pool, Row, SharedSettings, Site, Subscriber,
};
use off_tlv::{END_MARKER, read_settings};
use std::alloc::Global;

/// The row of the key's kind that has these bytes.
///
/// `BadRow` comes exactly where no row of the kind has them, with the place of the first byte that
/// can't be read. Want of memory comes only where a row has them.
pub fn decode(alloc: Global, k: &Key, bytes: &[u8]) -> Result<Row, RowErr>
    ensures found { MatchResult result (λ row. IsRowOf k.now row × (row_bytes row ≡ bytes.now))
        (WhyNoRow k.now bytes.now) }
    ensures first { (place : ℕ) → IsBadAt k.now bytes.now place → result ≡ Err (BadRow place) }
    ensures only { (row : Row) → IsRowOf k.now row → row_bytes row ≡ bytes.now
        → GivesRow row result }
{
    found_row(alloc, *k, bytes)
}

fn found_row(alloc: Global, key: Key, bytes: &[u8]) -> Result<Row, RowErr>
    ensures { MatchResult result (λ row. IsRowOf key row × (row_bytes row ≡ bytes.now))
        (WhyNoRow key bytes.now) }
{
    match key {
        Key::Site => Ok(Row::Site(site(bytes)?)),
        Key::Subscriber(_) => Ok(Row::Subscriber(subscriber(bytes)?)),
        Key::AddOn(_, _) => Ok(Row::AddOn(add_on(alloc, bytes)?)),
        Key::Modem(_) => Ok(Row::Modem(modem(bytes)?)),
        Key::Class(_) => Ok(Row::Class(class(alloc, bytes)?)),
        Key::Pool(_) => Ok(Row::Pool(pool(bytes)?)),
        Key::Lease(_) => Ok(Row::Lease(lease(bytes)?)),
        Key::Held(_) => Ok(Row::Held(held(bytes)?)),
        Key::Batch(_) => Ok(Row::Batch(batch(bytes)?)),
        Key::Hub(_) => Ok(Row::Site(site(bytes)?)),
        Key::PoolHub(_) => Ok(Row::PoolHub(pool_hub(bytes)?)),
        Key::DevicePool(_) => Ok(Row::Pool(pool(bytes)?)),
        Key::Device(_) => Ok(Row::Device(device(bytes)?)),
    }
}

fn site(bytes: &[u8]) -> Result<Site, RowErr>
    ensures { MatchResult result
        (λ site. RowRanged (row.Site site) × (row_bytes (row.Site site) ≡ bytes.now))
        (BadIn site_fields (from_start bytes.now)) }
{
    let mut fields = Fields::over(bytes);
    let server = fields.address()?;
    let secret = fields.secret()?;
    let offset = fields.offset()?;
    let lease = fields.number()?;
    let log = fields.address()?;
    fields.end()?;
    Ok(Site {
        server,
        secret,
        offset,
        lease,
        log,
    })
}

fn subscriber(bytes: &[u8]) -> Result<Subscriber, RowErr>
    ensures { MatchResult result
        (λ subscriber. RowRanged (row.Subscriber subscriber)
        × (row_bytes (row.Subscriber subscriber) ≡ bytes.now))
        (BadIn subscriber_fields (from_start bytes.now)) }
{
    let mut fields = Fields::over(bytes);
    let active = fields.flag()?;
    let cpes = fields.byte()?;
    let name = fields.text()?;
    fields.end()?;
    Ok(Subscriber { active, cpes, name })
}

fn modem(bytes: &[u8]) -> Result<Modem, RowErr>
    ensures { MatchResult result
        (λ modem. RowRanged (row.Modem modem) × (row_bytes (row.Modem modem) ≡ bytes.now))
        (BadIn modem_fields (from_start bytes.now)) }
{
    let mut fields = Fields::over(bytes);
    let subscriber = fields.number()?;
    let class = fields.number()?;
    let serial = fields.text()?;
    fields.end()?;
    Ok(Modem {
        subscriber,
        class,
        serial,
    })
}

fn pool(bytes: &[u8]) -> Result<Pool, RowErr>
    ensures { MatchResult result
        (λ pool. RowRanged (row.Pool pool) × (row_bytes (row.Pool pool) ≡ bytes.now))
        (BadIn pool_fields (from_start bytes.now)) }
{
    let mut fields = Fields::over(bytes);
    let first = fields.address()?;
    let last = fields.address()?;
    let prefix = fields.byte()?;
    let router = fields.address()?;
    let relay = fields.address()?;
    fields.end()?;
    Ok(Pool {
        first,
        last,
        prefix,
        router,
        relay,
    })
}

fn held(bytes: &[u8]) -> Result<Ip4, RowErr>
    ensures { MatchResult result
        (λ address. RowRanged (row.Held address) × (row_bytes (row.Held address) ≡ bytes.now))
        (BadIn held_fields (from_start bytes.now)) }
{
    let mut fields = Fields::over(bytes);
    let address = fields.address()?;
    fields.end()?;
    Ok(address)
}

fn batch(bytes: &[u8]) -> Result<Batch, RowErr>
    ensures { MatchResult result
        (λ batch. RowRanged (row.Batch batch) × (row_bytes (row.Batch batch) ≡ bytes.now))
        (BadIn batch_fields (from_start bytes.now)) }
{
    let mut fields = Fields::over(bytes);
    let kind = fields.import_kind()?;
    let digest = fields.array::<16>()?;
    let rows = fields.number()?;
    fields.end()?;
    Ok(Batch { kind, digest, rows })
}

fn pool_hub(bytes: &[u8]) -> Result<u32, RowErr>
    ensures { MatchResult result
        (λ hub. RowRanged (row.PoolHub hub) × (row_bytes (row.PoolHub hub) ≡ bytes.now))
        (BadIn pool_hub_fields (from_start bytes.now)) }
{
    let mut fields = Fields::over(bytes);
    let hub = fields.number()?;
    fields.end()?;
    Ok(hub)
}

fn lease(bytes: &[u8]) -> Result<Lease, RowErr>
    ensures { MatchResult result
        (λ lease. RowRanged (row.Lease lease) × (row_bytes (row.Lease lease) ≡ bytes.now))
        (BadIn (hold_fields bytes.now ++ bytes_of 8 ∷ []) (from_start bytes.now)) }
{
    let mut fields = Fields::over(bytes);
    let hold = hold(&mut fields)?;
    let expiry = fields.long()?;
    fields.end()?;
    Ok(Lease {
        hold,
        expiry: Moment(expiry),
    })
}

// How an address is held.
fn hold(fields: &mut Fields) -> Result<Hold, RowErr>
    ensures { MatchResult result
        (λ hold. OwnerIsMac hold
        × Passes (hold_fields fields.old.rest) (hold_bytes hold) fields.old fields.new)
        (λ err. (more : List Field) → BadIn (hold_fields fields.old.rest ++ more) fields.old err) }
{
    let mark = fields.one_of(&[1, 2, 3])?;
    if mark == 3 {
        return Ok(Hold::Declined);
    }
    let owner = fields.mac()?;
    if mark == 1 {
        Ok(Hold::Offered(owner))
    } else {
        Ok(Hold::Bound(owner))
    }
}

fn add_on(alloc: Global, bytes: &[u8]) -> Result<SharedSettings, RowErr>
    ensures { MatchResult result
        (λ settings. SettingsStand (row.AddOn settings)
        × (row_bytes (row.AddOn settings) ≡ bytes.now)) (WhyNoAddOn bytes.now) }
{
    let mut fields = Fields::over(bytes);
    let spelling = fields.spelling()?;
    fields.end()?;
    match settings_of(alloc, spelling) {
        Ok(settings) => Ok(settings),
        Err(NoMemory) => Err(RowErr::Memory),
    }
}

fn class(alloc: Global, bytes: &[u8]) -> Result<Class, RowErr>
    ensures { MatchResult result
        (λ class. RowRanged (row.Class class) × SettingsStand (row.Class class)
        × (row_bytes (row.Class class) ≡ bytes.now)) (WhyNoClass bytes.now) }
{
    let mut fields = Fields::over(bytes);
    let name = fields.text()?;
    let spelling = fields.spelling()?;
    fields.end()?;
    match settings_of(alloc, spelling) {
        Ok(settings) => Ok(Class { name, settings }),
        Err(NoMemory) => Err(RowErr::Memory),
    }
}

// The settings that spell the bytes. They are read as a file, so that it has no fault but want of
// memory.
fn settings_of(alloc: Global, spelling: &[u8]) -> Result<SharedSettings, NoMemory>
    requires { IsSettings spelling.now }
    ensures { IfOk result
        (λ settings. AllStand in_file settings × (spelling.now ≡ spelling_of settings)) }
{
    let mut file = Bytes::new(alloc);
    file.push_all(spelling)?;
    file.push_all(&[END_MARKER])?;
    match read_settings(alloc, file.as_slice()) {
        Ok(settings) => SharedSettings::new(alloc, settings),
        Err(_) => Err(NoMemory),
    }
}
