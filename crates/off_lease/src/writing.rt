//! What a message writes that no rule refuses. Each lease ends so many seconds after now.

ghost use Rattle.std.specs.Prelude.{◌≡◌, ◌++◌, [], ◌∷◌, IfOk, OnOk};
ghost use Rattle.off_defs.specs.declared.keys.Key.TheVariants as key;
ghost use Rattle.off_defs.specs.declared.tables.Row.TheVariants as row;
ghost use Rattle.off_defs.specs.declared.writes.Write.TheVariants.{Put};
ghost use Rattle.off_account_rules.specs.Rows.{passes};
ghost use Rattle.off_account_rules.specs.Changes.{held_drop};
ghost use Rattle.off_lease_rules.specs.Steps.{lease_row, lease_drop, held_elsewhere};
ghost use Rattle.off_lease_rules.specs.Steps.{former_owner, offered};
ghost use Rattle.off_account_rules.specs.Good.{is_bound, is_live_bound};
ghost use Rattle.off_lease_rules.specs.Steps.{bound, set_aside, given_up};

use off_base::{Ip4, Mac, Moment, NoMemory};
use off_defs::{Hold, Key, Lease, Row, Site, Write, Writes};
use off_readers::owner_of;
use std::alloc::Global;

// How many seconds an address is offered, and rests where it was declined.
const OFFERED: u32 = 120;

const DECLINED: u32 = 600;

/// The address is offered to the client, unless it's bound to it already.
pub(crate) fn offered(
    alloc: Global,
    now: Moment,
    mac: Mac,
    held: Option<Ip4>,
    address: Ip4,
    lease: Option<Lease>,
) -> Result<Writes, NoMemory>
    ensures { IfOk result (λ writes. writes ≡ offered now.0 mac held address lease) }
{
    let mut writes = Writes::new(alloc);
    if is_live_bound(now, lease) {
        return Ok(writes);
    }
    push_lease_drop(&mut writes, held_elsewhere(address, held))?;
    push_held_drop(&mut writes, former_owner(mac, lease))?;
    push_lease(&mut writes, address, Hold::Offered(mac), OFFERED, now)?;
    writes.push(Write::Put(Key::Held(mac), Row::Held(address)))?;
    Ok(writes)
}

/// The address is bound to the client.
pub(crate) fn bound(
    alloc: Global,
    now: Moment,
    mac: Mac,
    address: Ip4,
    site: &Site,
) -> Result<Writes, NoMemory>
    ensures { IfOk result (λ writes. writes ≡ bound now.0 mac address site.now) }
{
    let mut writes = Writes::new(alloc);
    push_lease(&mut writes, address, Hold::Bound(mac), site.lease, now)?;
    Ok(writes)
}

/// The address is declined.
pub(crate) fn set_aside(
    alloc: Global,
    now: Moment,
    mac: Mac,
    address: Ip4,
) -> Result<Writes, NoMemory>
    ensures { IfOk result (λ writes. writes ≡ set_aside now.0 mac address) }
{
    let mut writes = Writes::new(alloc);
    push_lease(&mut writes, address, Hold::Declined, DECLINED, now)?;
    writes.push(Write::Drop(Key::Held(mac)))?;
    Ok(writes)
}

/// The address is released.
pub(crate) fn given_up(alloc: Global, mac: Mac, address: Ip4) -> Result<Writes, NoMemory>
    ensures { IfOk result (λ writes. writes ≡ given_up mac address) }
{
    let mut writes = Writes::new(alloc);
    writes.push(Write::Drop(Key::Lease(address)))?;
    writes.push(Write::Drop(Key::Held(mac)))?;
    Ok(writes)
}

// Appends the lease of an address, which ends so many seconds after now.
fn push_lease(
    writes: &mut Writes,
    address: Ip4,
    hold: Hold,
    seconds: u32,
    now: Moment,
) -> Result<(), NoMemory>
    ensures { OnOk result (writes.new ≡ writes.old ++ lease_row address hold seconds now.0 ∷ []) }
{
    let expiry = Moment(now.0.saturating_add(u64::from(seconds)));
    writes.push(Write::Put(Key::Lease(address), Row::Lease(Lease { hold, expiry })))
}

// Appends the drop of a lease, where there is one.
fn push_lease_drop(writes: &mut Writes, address: Option<Ip4>) -> Result<(), NoMemory>
    ensures { OnOk result (writes.new ≡ writes.old ++ lease_drop address) }
{
    match address {
        Some(address) => writes.push(Write::Drop(Key::Lease(address))),
        None => Ok(()),
    }
}

// Appends the drop of what a modem holds, where there is one.
fn push_held_drop(writes: &mut Writes, mac: Option<Mac>) -> Result<(), NoMemory>
    ensures { OnOk result (writes.new ≡ writes.old ++ held_drop mac) }
{
    match mac {
        Some(mac) => writes.push(Write::Drop(Key::Held(mac))),
        None => Ok(()),
    }
}

// The address that the client held before, where it's another one.
fn held_elsewhere(address: Ip4, held: Option<Ip4>) -> Option<Ip4>
    ensures { result ≡ held_elsewhere address held }
{
    let Some(other) = held else { return None };
    if other.0 == address.0 {
        None
    } else {
        Some(other)
    }
}

// The modem whose lease it was, where it's another one.
fn former_owner(mac: Mac, lease: Option<Lease>) -> Option<Mac>
    ensures { result ≡ former_owner mac lease }
{
    let Some(lease) = lease else { return None };
    let Some(other) = owner_of(lease.hold) else {
        return None;
    };
    if other.0.as_slice() == mac.0.as_slice() {
        None
    } else {
        Some(other)
    }
}

fn is_live_bound(now: Moment, lease: Option<Lease>) -> bool
    ensures { result ≡ passes (is_live_bound now.0) lease }
{
    match lease {
        Some(lease) => is_bound(lease.hold) && now.0 < lease.expiry.0,
        None => false,
    }
}

fn is_bound(hold: Hold) -> bool
    ensures { result ≡ is_bound hold }
{
    matches!(hold, Hold::Bound(_))
}
