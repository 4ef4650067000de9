//! What writes change of devices' leases, by the writes alone.

ghost use Rattle.std.specs.Prelude.{◌≡◌, ◌==◌, ◌&&◌, true, min, max};
ghost use Rattle.std.specs.List.{list_any};
ghost use Rattle.off_base.specs.declared.addresses.Ip4.{Ip4};
ghost use Rattle.off_account_rules.specs.Rows.{as_device, passes};
ghost use Rattle.off_behind.specs.Changes.{change_of};
ghost use Rattle.off_behind.specs.Drops.{puts, changes, is_between, is_dropped, AreEnds};

use off_base::Ip4;
use off_defs::{DeviceLease, Key, Row, Write, Writes};

/// Whether a write puts a device's lease.
pub(crate) fn has_puts(writes: &Writes) -> bool
    ensures { result ≡ list_any puts writes.now }
{
    for place in 0..writes.len() {
        if is_put(writes.get(place)) {
            return true;
        }
    }
    false
}

fn is_put(write: &Write) -> bool
    ensures { result ≡ puts write.now }
{
    match change_of(write) {
        Some((_address, lease)) => lease.is_some(),
        None => false,
    }
}

/// The least and the greatest address whose lease a write changes.
pub(crate) fn ends_of(writes: &Writes) -> Option<(Ip4, Ip4)>
    ensures { AreEnds writes.now result }
{
    let mut ends = None;
    for place in 0..writes.len() {
        ends = widened(ends, writes.get(place));
    }
    ends
}

// The least and the greatest address with that whose lease a write changes.
fn widened(ends: Option<(Ip4, Ip4)>, write: &Write) -> Option<(Ip4, Ip4)>
    ensures same { (address : Ip4) → passes (is_between address) ends ≡ true
        → passes (is_between address) result ≡ true }
    ensures here { (address : Ip4) → changes address write.now ≡ true
        → passes (is_between address) result ≡ true }
{
    let Some((address, _lease)) = change_of(write) else {
        return ends;
    };
    match ends {
        Some((least, greatest)) => Some((lower(least, address), higher(greatest, address))),
        None => Some((address, address)),
    }
}

fn lower(address: Ip4, other: Ip4) -> Ip4
    ensures { result.0 ≡ min address.0 other.0 }
{
    Ip4(address.0.min(other.0))
}

fn higher(address: Ip4, other: Ip4) -> Ip4
    ensures { result.0 ≡ max address.0 other.0 }
{
    Ip4(address.0.max(other.0))
}

/// Whether writes change the lease of an address. They are gone over only where it lies between
/// the least and the greatest whose leases they change.
pub(crate) fn is_dropped(writes: &Writes, ends: (Ip4, Ip4), address: Ip4) -> bool
    ensures { result ≡ is_dropped writes.now ends address }
{
    is_between(address, ends) && has_change(writes, address)
}

fn is_between(address: Ip4, ends: (Ip4, Ip4)) -> bool
    ensures { result ≡ is_between address ends }
{
    ends.0.0 <= address.0 && address.0 <= ends.1.0
}

fn has_change(writes: &Writes, address: Ip4) -> bool
    ensures { result ≡ list_any (changes address) writes.now }
{
    for place in 0..writes.len() {
        if is_change(writes.get(place), address) {
            return true;
        }
    }
    false
}

fn is_change(write: &Write, address: Ip4) -> bool
    ensures { result ≡ changes address write.now }
{
    match write {
        Write::Put(Key::Device(other), _row) => other.0 == address.0,
        Write::Drop(Key::Device(other)) => other.0 == address.0,
        _ => false,
    }
}

/// The address whose lease a write changes, and its new lease.
pub(crate) fn change_of(write: &Write) -> Option<(Ip4, Option<DeviceLease>)>
    ensures { result ≡ change_of write.now }
{
    match write {
        Write::Put(Key::Device(address), row) => Some((*address, as_device(row))),
        Write::Drop(Key::Device(address)) => Some((*address, None)),
        _ => None,
    }
}

fn as_device(row: &Row) -> Option<DeviceLease>
    ensures { result ≡ as_device row.now }
{
    match row {
        Row::Device(lease) => Some(*lease),
        _ => None,
    }
}
