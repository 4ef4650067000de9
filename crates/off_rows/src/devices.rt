//! The bytes of the lease of a device's address.
ghost use Rattle.std.specs.Prelude.{◌≡◌, ◌∷◌, [], ◌++◌, List, IfOk, OnOk, MatchResult};
ghost use Rattle.off_defs.specs.declared.tables.Row.TheVariants as row;
ghost use Rattle.off_rows.specs.RowBytes.{row_bytes, device_hold_bytes, RowRanged};
ghost use Rattle.off_rows.specs.RowBytes.{OwnersAreMacs};
ghost use Rattle.off_rows.specs.BadRow.{Field, bytes_of, device_hold_fields};
ghost use Rattle.off_rows.specs.Reading.{BadIn, Passes, from_start};

use crate::faults::RowErr;
use crate::fields::Fields;
use crate::writing::{push_long, push_marked};
use off_base::{Bytes, Mac, Moment, NoMemory};
use off_defs::{DeviceHold, DeviceLease};
use std::alloc::Global;

pub(crate) fn device(bytes: &[u8]) -> Result<DeviceLease, RowErr>
    ensures { MatchResult result
        (λ lease. RowRanged (row.Device lease) × (row_bytes (row.Device lease) ≡ bytes.now))
        (BadIn (device_hold_fields bytes.now ++ bytes_of 8 ∷ []) (from_start bytes.now)) }
{
    let mut fields = Fields::over(bytes);
    let hold = device_hold(&mut fields)?;
    let expiry = fields.long()?;
    fields.end()?;
    Ok(DeviceLease {
        hold,
        expiry: Moment(expiry),
    })
}

// How a device's address is held.
fn device_hold(fields: &mut Fields) -> Result<DeviceHold, RowErr>
    ensures { MatchResult result
        (λ hold. OwnersAreMacs hold
        × Passes (device_hold_fields fields.old.rest) (device_hold_bytes hold)
        fields.old fields.new)
        (λ err. (more : List Field) →
        BadIn (device_hold_fields fields.old.rest ++ more) fields.old err) }
{
    let mark = fields.one_of(&[1, 2, 3])?;
    if mark == 3 {
        return Ok(DeviceHold::Declined);
    }
    let modem = fields.mac()?;
    let owner = fields.mac()?;
    if mark == 1 {
        Ok(DeviceHold::Offered(modem, owner))
    } else {
        Ok(DeviceHold::Bound(modem, owner))
    }
}

pub(crate) fn device_bytes(alloc: Global, lease: DeviceLease) -> Result<Bytes, NoMemory>
    ensures bytes { IfOk result (λ bytes. bytes ≡ row_bytes (row.Device lease)) }
    ensures ranged { OnOk result (RowRanged (row.Device lease)) }
{
    let mut out = Bytes::new(alloc);
    push_device_hold(&mut out, lease.hold)?;
    push_long(&mut out, lease.expiry.0)?;
    Ok(out)
}

fn push_device_hold(out: &mut Bytes, hold: DeviceHold) -> Result<(), NoMemory>
    ensures bytes { OnOk result (out.new ≡ out.old ++ device_hold_bytes hold) }
    ensures ranged { OwnersAreMacs hold }
{
    match hold {
        DeviceHold::Offered(modem, owner) => push_owners(out, 1, modem, owner),
        DeviceHold::Bound(modem, owner) => push_owners(out, 2, modem, owner),
        DeviceHold::Declined => push_marked(out, 3, &[]),
    }
}

// A mark, and the modem and the device that have the address.
fn push_owners(out: &mut Bytes, mark: u8, modem: Mac, owner: Mac) -> Result<(), NoMemory>
    ensures { OnOk result (out.new ≡ out.old ++ mark ∷ (modem.0 ++ owner.0)) }
{
    push_marked(out, mark, &modem.0)?;
    out.push_all(&owner.0)
}
