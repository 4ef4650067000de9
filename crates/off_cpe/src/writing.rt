//! What a device's message writes that no rule refuses. Each lease ends so many seconds after now.

ghost use Rattle.std.specs.Prelude.{◌≡◌, ◌++◌, [], ◌∷◌, IfOk, OnOk};
ghost use Rattle.off_account_rules.specs.Rows.{passes};
ghost use Rattle.off_cpe_rules.specs.Steps.{device_row, own_drop, own_elsewhere};
ghost use Rattle.off_cpe_rules.specs.Steps.{is_bound, is_live_bound, offered, bound};
ghost use Rattle.off_cpe_rules.specs.Steps.{set_aside, given_up};

use off_base::{Ip4, Mac, Moment, NoMemory};
use off_defs::{DeviceHold, DeviceLease, Key, Row, Site, Write, Writes};
use std::alloc::Global;

// How many seconds an address is offered, and rests where it was declined.
const OFFERED: u32 = 120;

const DECLINED: u32 = 600;

/// The address is offered to the device, unless it's bound to it already.
pub(crate) fn offered(
    alloc: Global,
    now: Moment,
    modem: Mac,
    device: Mac,
    own: Option<Ip4>,
    address: Ip4,
    lease: Option<DeviceLease>,
) -> Result<Writes, NoMemory>
    ensures { IfOk result (λ writes. writes ≡ offered now.0 modem device own address lease) }
{
    let mut writes = Writes::new(alloc);
    if is_live_bound(now, lease) {
        return Ok(writes);
    }
    push_drop(&mut writes, own_elsewhere(address, own))?;
    push_row(
        &mut writes,
        address,
        DeviceHold::Offered(modem, device),
        OFFERED,
        now,
    )?;
    Ok(writes)
}

/// The address is bound to the device.
pub(crate) fn bound(
    alloc: Global,
    now: Moment,
    modem: Mac,
    device: Mac,
    address: Ip4,
    site: &Site,
) -> Result<Writes, NoMemory>
    ensures { IfOk result (λ writes. writes ≡ bound now.0 modem device address site.now) }
{
    let mut writes = Writes::new(alloc);
    push_row(
        &mut writes,
        address,
        DeviceHold::Bound(modem, device),
        site.lease,
        now,
    )?;
    Ok(writes)
}

/// The address is declined.
pub(crate) fn set_aside(alloc: Global, now: Moment, address: Ip4) -> Result<Writes, NoMemory>
    ensures { IfOk result (λ writes. writes ≡ set_aside now.0 address) }
{
    let mut writes = Writes::new(alloc);
    push_row(&mut writes, address, DeviceHold::Declined, DECLINED, now)?;
    Ok(writes)
}

/// The address is released.
pub(crate) fn given_up(alloc: Global, address: Ip4) -> Result<Writes, NoMemory>
    ensures { IfOk result (λ writes. writes ≡ given_up address) }
{
    let mut writes = Writes::new(alloc);
    writes.push(Write::Drop(Key::Device(address)))?;
    Ok(writes)
}

fn push_row(
    writes: &mut Writes,
    address: Ip4,
    hold: DeviceHold,
    seconds: u32,
    now: Moment,
) -> Result<(), NoMemory>
    ensures { OnOk result (writes.new ≡ writes.old ++ device_row address hold seconds now.0 ∷ []) }
{
    let expiry = Moment(now.0.saturating_add(u64::from(seconds)));
    let row = Row::Device(DeviceLease { hold, expiry });
    writes.push(Write::Put(Key::Device(address), row))
}

fn push_drop(writes: &mut Writes, address: Option<Ip4>) -> Result<(), NoMemory>
    ensures { OnOk result (writes.new ≡ writes.old ++ own_drop address) }
{
    match address {
        Some(address) => writes.push(Write::Drop(Key::Device(address))),
        None => Ok(()),
    }
}

fn own_elsewhere(address: Ip4, own: Option<Ip4>) -> Option<Ip4>
    ensures { result ≡ own_elsewhere address own }
{
    let Some(other) = own else { return None };
    if other.0 == address.0 {
        None
    } else {
        Some(other)
    }
}

fn is_live_bound(now: Moment, lease: Option<DeviceLease>) -> bool
    ensures { result ≡ passes (is_live_bound now.0) lease }
{
    match lease {
        Some(lease) => is_bound(lease.hold) && now.0 < lease.expiry.0,
        None => false,
    }
}

fn is_bound(hold: DeviceHold) -> bool
    ensures { result ≡ is_bound hold }
{
    matches!(hold, DeviceHold::Bound(_, _))
}
