ghost use Rattle.std.specs.Prelude.{◌≡◌, ◌<◌, ◌≤◌, ◌^◌, ◌∷◌, [], ◌++◌, length, IfOk, OnOk};
ghost use Rattle.std.specs.Prelude.{FitsSigned};
ghost use Rattle.std.specs.Int.{to_be_bytes, cast_unsigned, w32, w64};
ghost use Rattle.off_base.specs.Tree.{AllFit};
ghost use Rattle.off_defs.specs.declared.tables.Row.TheVariants as row;
ghost use Rattle.off_rows.specs.RowBytes.{row_bytes, counted, settings_bytes, flag_bytes};
ghost use Rattle.off_rows.specs.RowBytes.{hold_bytes, import_kind_bytes, RowRanged, CanSpell};
ghost use Rattle.off_rows.specs.RowBytes.{IsShortSpelling, OwnerIsMac, IsText};

use crate::devices::device_bytes;
use off_base::{Bytes, Ip4, NoMemory, Secret, Settings, Short};
use off_defs::{Batch, Class, Hold, ImportKind, Lease, Modem, Pool, Row, Site, Subscriber};
use off_tlv::{spelled_len, write_settings};
use std::alloc::Global;

/// The row's bytes, its one spelling. Its settings have to have a spelling of at most 65,535 bytes.
pub fn encode(alloc: Global, r: &Row) -> Result<Bytes, NoMemory>
    requires { CanSpell r.now }
    ensures bytes { IfOk result (λ bytes. bytes ≡ row_bytes r.now) }
    ensures ranged { OnOk result (RowRanged r.now) }
{
    match r {
        Row::Site(site) => site_bytes(alloc, site),
        Row::Subscriber(subscriber) => subscriber_bytes(alloc, subscriber),
        Row::AddOn(settings) => add_on_bytes(alloc, settings.as_settings()),
        Row::Modem(modem) => modem_bytes(alloc, modem),
        Row::Class(class) => class_bytes(alloc, class),
        Row::Pool(pool) => pool_bytes(alloc, *pool),
        Row::Lease(lease) => lease_bytes(alloc, *lease),
        Row::Held(address) => held_bytes(alloc, *address),
        Row::Batch(batch) => batch_bytes(alloc, *batch),
        Row::PoolHub(hub) => pool_hub_bytes(alloc, *hub),
        Row::Device(lease) => device_bytes(alloc, *lease),
    }
}

fn site_bytes(alloc: Global, site: &Site) -> Result<Bytes, NoMemory>
    ensures bytes { IfOk result (λ bytes. bytes ≡ row_bytes (row.Site site.now)) }
    ensures ranged { OnOk result (RowRanged (row.Site site.now)) }
{
    let mut out = Bytes::new(alloc);
    push_address(&mut out, site.server)?;
    push_secret(&mut out, &site.secret)?;
    push_offset(&mut out, site.offset)?;
    push_number(&mut out, site.lease)?;
    push_address(&mut out, site.log)?;
    Ok(out)
}

fn subscriber_bytes(alloc: Global, subscriber: &Subscriber) -> Result<Bytes, NoMemory>
    ensures bytes { IfOk result (λ bytes. bytes ≡ row_bytes (row.Subscriber subscriber.now)) }
    ensures ranged { OnOk result (RowRanged (row.Subscriber subscriber.now)) }
{
    let mut out = Bytes::new(alloc);
    push_flag(&mut out, subscriber.active)?;
    push_byte(&mut out, subscriber.cpes)?;
    push_text(&mut out, &subscriber.name)?;
    Ok(out)
}

fn add_on_bytes(alloc: Global, settings: &Settings) -> Result<Bytes, NoMemory>
    requires fits { AllFit settings.now }
    requires short { IsShortSpelling settings.now }
    ensures { IfOk result (λ bytes. bytes ≡ row_bytes (row.AddOn settings.now)) }
{
    let mut out = Bytes::new(alloc);
    push_settings(&mut out, settings)?;
    Ok(out)
}

fn modem_bytes(alloc: Global, modem: &Modem) -> Result<Bytes, NoMemory>
    ensures bytes { IfOk result (λ bytes. bytes ≡ row_bytes (row.Modem modem.now)) }
    ensures ranged { OnOk result (RowRanged (row.Modem modem.now)) }
{
    let mut out = Bytes::new(alloc);
    push_number(&mut out, modem.subscriber)?;
    push_number(&mut out, modem.class)?;
    push_text(&mut out, &modem.serial)?;
    Ok(out)
}

fn class_bytes(alloc: Global, class: &Class) -> Result<Bytes, NoMemory>
    requires fits { AllFit class.now.settings }
    requires short { IsShortSpelling class.now.settings }
    ensures bytes { IfOk result (λ bytes. bytes ≡ row_bytes (row.Class class.now)) }
    ensures ranged { OnOk result (RowRanged (row.Class class.now)) }
{
    let mut out = Bytes::new(alloc);
    push_text(&mut out, &class.name)?;
    push_settings(&mut out, class.settings.as_settings())?;
    Ok(out)
}

fn pool_bytes(alloc: Global, pool: Pool) -> Result<Bytes, NoMemory>
    ensures bytes { IfOk result (λ bytes. bytes ≡ row_bytes (row.Pool pool)) }
    ensures ranged { OnOk result (RowRanged (row.Pool pool)) }
{
    let mut out = Bytes::new(alloc);
    push_address(&mut out, pool.first)?;
    push_address(&mut out, pool.last)?;
    push_byte(&mut out, pool.prefix)?;
    push_address(&mut out, pool.router)?;
    push_address(&mut out, pool.relay)?;
    Ok(out)
}

fn lease_bytes(alloc: Global, lease: Lease) -> Result<Bytes, NoMemory>
    ensures bytes { IfOk result (λ bytes. bytes ≡ row_bytes (row.Lease lease)) }
    ensures ranged { OnOk result (RowRanged (row.Lease lease)) }
{
    let mut out = Bytes::new(alloc);
    push_hold(&mut out, lease.hold)?;
    push_long(&mut out, lease.expiry.0)?;
    Ok(out)
}

fn held_bytes(alloc: Global, address: Ip4) -> Result<Bytes, NoMemory>
    ensures bytes { IfOk result (λ bytes. bytes ≡ row_bytes (row.Held address)) }
    ensures ranged { OnOk result (RowRanged (row.Held address)) }
{
    let mut out = Bytes::new(alloc);
    push_address(&mut out, address)?;
    Ok(out)
}

fn batch_bytes(alloc: Global, batch: Batch) -> Result<Bytes, NoMemory>
    ensures bytes { IfOk result (λ bytes. bytes ≡ row_bytes (row.Batch batch)) }
    ensures ranged { OnOk result (RowRanged (row.Batch batch)) }
{
    let mut out = Bytes::new(alloc);
    push_import_kind(&mut out, batch.kind)?;
    out.push_all(&batch.digest)?;
    push_number(&mut out, batch.rows)?;
    Ok(out)
}

fn pool_hub_bytes(alloc: Global, hub: u32) -> Result<Bytes, NoMemory>
    ensures bytes { IfOk result (λ bytes. bytes ≡ row_bytes (row.PoolHub hub)) }
    ensures ranged { OnOk result (RowRanged (row.PoolHub hub)) }
{
    let mut out = Bytes::new(alloc);
    push_number(&mut out, hub)?;
    Ok(out)
}

fn push_flag(out: &mut Bytes, flag: bool) -> Result<(), NoMemory>
    ensures { OnOk result (out.new ≡ out.old ++ flag_bytes flag) }
{
    if flag {
        out.push_all(&[1])
    } else {
        out.push_all(&[0])
    }
}

fn push_byte(out: &mut Bytes, byte: u8) -> Result<(), NoMemory>
    ensures bytes { OnOk result (out.new ≡ out.old ++ byte ∷ []) }
    ensures ranged { byte < 256 }
{
    out.push_all(&[byte])
}

fn push_number(out: &mut Bytes, number: u32) -> Result<(), NoMemory>
    ensures bytes { OnOk result (out.new ≡ out.old ++ to_be_bytes w32 number) }
    ensures ranged { number < 2 ^ 32 }
{
    out.push_all(&number.to_be_bytes())
}

pub(crate) fn push_long(out: &mut Bytes, number: u64) -> Result<(), NoMemory>
    ensures bytes { OnOk result (out.new ≡ out.old ++ to_be_bytes w64 number) }
    ensures ranged { number < 2 ^ 64 }
{
    out.push_all(&number.to_be_bytes())
}

fn push_address(out: &mut Bytes, address: Ip4) -> Result<(), NoMemory>
    ensures bytes { OnOk result (out.new ≡ out.old ++ to_be_bytes w32 address.0) }
    ensures ranged { address.0 < 2 ^ 32 }
{
    push_number(out, address.0)
}

// A signed number, in two's complement.
fn push_offset(out: &mut Bytes, offset: i32) -> Result<(), NoMemory>
    ensures bytes { OnOk result (out.new ≡ out.old ++ to_be_bytes w32 (cast_unsigned w32 offset)) }
    ensures ranged { FitsSigned w32 offset }
{
    out.push_all(&offset.to_be_bytes())
}

fn push_hold(out: &mut Bytes, hold: Hold) -> Result<(), NoMemory>
    ensures bytes { OnOk result (out.new ≡ out.old ++ hold_bytes hold) }
    ensures ranged { OwnerIsMac hold }
{
    match hold {
        Hold::Offered(owner) => push_marked(out, 1, &owner.0),
        Hold::Bound(owner) => push_marked(out, 2, &owner.0),
        Hold::Declined => push_marked(out, 3, &[]),
    }
}

fn push_import_kind(out: &mut Bytes, kind: ImportKind) -> Result<(), NoMemory>
    ensures { OnOk result (out.new ≡ out.old ++ import_kind_bytes kind) }
{
    match kind {
        ImportKind::Subscribers => out.push_all(&[1]),
        ImportKind::Modems => out.push_all(&[2]),
    }
}

fn push_text(out: &mut Bytes, text: &Short) -> Result<(), NoMemory>
    ensures bytes { OnOk result (out.new ≡ out.old ++ counted text.now) }
    ensures ranged { IsText text.now }
{
    let bytes = text.as_slice();
    push_marked(out, bytes.len() as u8, bytes)
}

fn push_secret(out: &mut Bytes, secret: &Secret) -> Result<(), NoMemory>
    ensures bytes { OnOk result (out.new ≡ out.old ++ counted secret.now) }
    ensures ranged { length secret.now ≤ 64 }
{
    let bytes = secret.as_slice();
    push_marked(out, bytes.len() as u8, bytes)
}

// One byte, and bytes behind it.
pub(crate) fn push_marked(out: &mut Bytes, mark: u8, bytes: &[u8]) -> Result<(), NoMemory>
    ensures { OnOk result (out.new ≡ out.old ++ mark ∷ bytes.now) }
{
    out.push_all(&[mark])?;
    out.push_all(bytes)
}

fn push_settings(out: &mut Bytes, settings: &Settings) -> Result<(), NoMemory>
    requires fits { AllFit settings.now }
    requires short { IsShortSpelling settings.now }
    ensures { OnOk result (out.new ≡ out.old ++ settings_bytes settings.now) }
{
    let Some(length) = spelled_len(settings) else {
        unreachable!()
    };
    out.push_all(&(length as u16).to_be_bytes())?;
    write_settings(settings, out)
}
