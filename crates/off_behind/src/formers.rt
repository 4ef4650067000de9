//! The leases that the addresses of writes have, which are read before the writes are done.

ghost use Rattle.std.specs.Prelude.{◌≡◌, ◌<◌, ◌+◌, ◌++◌, ◌∷◌, [], Option, Some, IfOk, OnOk};
ghost use Rattle.std.specs.Prelude.{length, take, unwrap_or, vec_len, slice_get, is_some};
ghost use Rattle.std.specs.Prelude.{IfSome, if◌then◌else◌};
ghost use Rattle.off_defs.specs.declared.writes.Write.{Write};
ghost use Rattle.off_defs.specs.declared.tables.DeviceLease.{DeviceLease};
ghost use Rattle.off_defs.specs.State.{Tables};
ghost use Rattle.off_defs.specs.Tables.{written, write_all};
ghost use Rattle.off_account_rules.specs.Rows.{passes, device_in};
ghost use Rattle.off_account_rules.specs.Good.{is_address};
ghost use Rattle.off_behind.specs.Changes.{old_at, olds_of};
ghost use Rattle.off_behind.specs.Neighbours.{StandsIn, is_elsewhere, elsewhere};
ghost use Rattle.off_outside.specs.KeeperCalls.{Looks, Spent};

use crate::bucket::is_other;
use crate::changes::change_of;
use off_base::{Ip4, NoMemory};
use off_defs::{DeviceLease, Write, Writes};
use off_outside::{KeepErr, Keeper};
use off_readers::read_device;
use std::alloc::Global;

/// The leases that the addresses of writes have, each before its own write, where one lease is
/// known that stands in the tables. It's a call for each other address of a device's lease that is
/// written, and none for other writes.
pub fn read_olds<K: Keeper>(
    alloc: Global,
    keeper: &mut K,
    writes: &Writes,
    known: Option<(Ip4, DeviceLease)>,
) -> Result<Vec<Option<DeviceLease>>, KeepErr>
    ensures told { Looks result (K.seen keeper.old) (K.seen keeper.new)
        (λ olds t. StandsIn known t → olds.items ≡ olds_of t writes.now) }
    ensures len { IfOk result (λ olds. vec_len olds ≡ length writes.now) }
    ensures spent { Spent (length (elsewhere known writes.now))
        (K.seen keeper.old) (K.seen keeper.new) }
{
    let mut olds = Vec::new(alloc);
    for place in 0..writes.len() {
        let old = read_old(alloc, keeper, writes, known, place)?;
        push_old(&mut olds, old)?;
    }
    Ok(olds)
}

fn push_old(olds: &mut Vec<Option<DeviceLease>>, old: Option<DeviceLease>) -> Result<(), NoMemory>
    ensures items { OnOk result (olds.new.items ≡ olds.old.items ++ old ∷ []) }
    ensures len { OnOk result (vec_len olds.new ≡ vec_len olds.old + 1) }
{
    match olds.push(old) {
        Ok(()) => Ok(()),
        Err(_refused) => Err(NoMemory),
    }
}

// The lease that the address of a write has before it.
#[tactic(auto, using(crate::proofs::FormerLemmas::one_read))]
fn read_old<K: Keeper>(
    alloc: Global,
    keeper: &mut K,
    writes: &Writes,
    known: Option<(Ip4, DeviceLease)>,
    place: usize,
) -> Result<Option<DeviceLease>, KeepErr>
    requires { place < length writes.now }
    ensures told { Looks result (K.seen keeper.old) (K.seen keeper.new)
        (λ old t. StandsIn known t → (write : Write) → slice_get writes.now place ≡ Some write
        → old ≡ old_at (write_all t (take place writes.now)) write) }
    ensures spent { (write : Write) → slice_get writes.now place ≡ Some write
        → Spent (if is_elsewhere known write then 1 else 0)
        (K.seen keeper.old) (K.seen keeper.new) }
{
    let Some((address, _lease)) = change_of(writes.get(place)) else {
        return Ok(None);
    };
    match written_before(writes, place, address) {
        Some(lease) => Ok(lease),
        None => read_lease(alloc, keeper, known, address),
    }
}

// The lease of an address, which is no call where it's the one that is known.
#[tactic(auto, using(crate::proofs::FormerLemmas::one_read))]
fn read_lease<K: Keeper>(
    alloc: Global,
    keeper: &mut K,
    known: Option<(Ip4, DeviceLease)>,
    address: Ip4,
) -> Result<Option<DeviceLease>, KeepErr>
    ensures told { Looks result (K.seen keeper.old) (K.seen keeper.new)
        (λ lease t. StandsIn known t → lease ≡ device_in t address) }
    ensures spent { Spent (if passes (λ entry. is_address address entry.0) known then 0 else 1)
        (K.seen keeper.old) (K.seen keeper.new) }
{
    match lease_at(known, address) {
        Some(lease) => Ok(Some(lease)),
        None => read_device(alloc, keeper, address),
    }
}

// The lease that is known, where it's that of the address.
fn lease_at(known: Option<(Ip4, DeviceLease)>, address: Ip4) -> Option<DeviceLease>
    ensures is { is_some result ≡ passes (λ entry. is_address address entry.0) known }
    ensures stands { IfSome result (λ lease. (t : Tables) → StandsIn known t
        → device_in t address ≡ Some lease) }
{
    let (held, lease) = known?;
    if held.0 == address.0 {
        Some(lease)
    } else {
        None
    }
}

// The lease that the writes before a place leave to an address, or `None` where they don't change
// it.
fn written_before(writes: &Writes, place: usize, address: Ip4) -> Option<Option<DeviceLease>>
    requires { place < length writes.now }
    ensures { (t : Tables) → device_in (write_all t (take place writes.now)) address
        ≡ unwrap_or result (device_in t address) }
{
    let mut found = None;
    for before in 0..place {
        found = left_by(writes.get(before), address, found);
    }
    found
}

// The lease that a write leaves to an address, or what was found of the writes before it.
fn left_by(
    write: &Write,
    address: Ip4,
    found: Option<Option<DeviceLease>>,
) -> Option<Option<DeviceLease>>
    ensures { (t : Tables) (first : Option DeviceLease)
        → device_in t address ≡ unwrap_or found first
        → device_in (written t write.now) address ≡ unwrap_or result first }
{
    let Some((other, lease)) = change_of(write) else {
        return found;
    };
    if is_other(address, other) {
        found
    } else {
        Some(lease)
    }
}
