//! What writes change of the leases in the buckets.

ghost use Rattle.std.specs.Prelude.{◌≡◌, ◌<◌, ◌≤◌, ◌+◌, ◌==◌, ℕ, true, length, vec_len};
ghost use Rattle.std.specs.Prelude.{OnOk, IfSome, if◌then◌else◌};
ghost use Rattle.off_base.specs.declared.addresses.Ip4.{Ip4};
ghost use Rattle.off_defs.specs.State.{Tables};
ghost use Rattle.off_defs.specs.Tables.{written, write_all};
ghost use Rattle.off_account_rules.specs.Rows.{passes, devices};
ghost use Rattle.off_behind.specs.Buckets.{bucket_at, room_at, Indexes};
ghost use Rattle.off_behind.specs.Changes.{old_at, olds_of, holds, puts_in, taken};
ghost use Rattle.off_behind.specs.Changes.{HasRoom, without_address};
ghost use Rattle.off_behind.specs.Drops.{without_dropped};

use crate::bucket::Bucket;
use crate::buckets::{bucket_of, forget_all_in, forget_in, insert_in, reserve_in};
use crate::changes::{change_of, ends_of, has_puts};
use crate::leases::owner_of;
use off_base::{Ip4, NoMemory};
use off_defs::{DeviceLease, Write, Writes};

/// Takes room for the leases that writes put.
pub(crate) fn reserve_all(buckets: &mut Vec<Bucket>, writes: &Writes) -> Result<(), NoMemory>
    requires { vec_len buckets.old ≡ 16384 }
    ensures len { vec_len buckets.new ≡ 16384 }
    ensures same { (place : ℕ)
        → bucket_at buckets.new.items place ≡ bucket_at buckets.old.items place }
    ensures room { OnOk result (HasRoom writes.now buckets.new.items) }
{
    let more = writes.len();
    for place in 0..more {
        reserve_for(buckets, writes.get(place), more)?;
    }
    Ok(())
}

// Takes room for so many more in the bucket of the lease that a write puts, if it puts one.
fn reserve_for(buckets: &mut Vec<Bucket>, write: &Write, more: usize) -> Result<(), NoMemory>
    requires { vec_len buckets.old ≡ 16384 }
    ensures len { vec_len buckets.new ≡ 16384 }
    ensures same { (place : ℕ)
        → bucket_at buckets.new.items place ≡ bucket_at buckets.old.items place }
    ensures rooms { (place : ℕ)
        → room_at buckets.old.items place ≤ room_at buckets.new.items place }
    ensures room { OnOk result ((place : ℕ) → puts_in place write.now ≡ true
        → length (bucket_at buckets.old.items place) + more ≤ room_at buckets.new.items place) }
{
    match put_place(write) {
        Some(place) => reserve_in(buckets, place, more),
        None => Ok(()),
    }
}

/// Takes writes that were done, with the leases that their addresses had. There is room for those
/// that they put.
pub(crate) fn take_writes(
    buckets: &mut Vec<Bucket>,
    writes: &Writes,
    olds: &Vec<Option<DeviceLease>>,
)
    requires len { vec_len buckets.old ≡ 16384 }
    requires room { HasRoom writes.now buckets.old.items }
    requires all { vec_len olds.now ≡ length writes.now }
    ensures len { vec_len buckets.new ≡ 16384 }
    ensures stands { (t : Tables) → olds.now.items ≡ olds_of t writes.now
        → Indexes buckets.old.items (devices t)
        → Indexes buckets.new.items (devices (write_all t writes.now)) }
{
    for place in 0..writes.len() {
        take_write(buckets, writes.get(place), olds[place]);
    }
}

// Takes a write, with the lease that its address had.
fn take_write(buckets: &mut Vec<Bucket>, write: &Write, former: Option<DeviceLease>)
    requires len { vec_len buckets.old ≡ 16384 }
    requires room { (place : ℕ) → place < 16384 → puts_in place write.now ≡ true
        → length (bucket_at buckets.old.items place) < room_at buckets.old.items place }
    ensures len { vec_len buckets.new ≡ 16384 }
    ensures stands { (t : Tables) → former ≡ old_at t write.now
        → Indexes buckets.old.items (devices t)
        → Indexes buckets.new.items (devices (written t write.now)) }
    ensures grown { (place : ℕ) → length (bucket_at buckets.new.items place)
        ≤ length (bucket_at buckets.old.items place) + 1 }
    ensures rooms { (place : ℕ)
        → room_at buckets.old.items place ≤ room_at buckets.new.items place }
{
    let Some((address, lease)) = change_of(write) else {
        return;
    };
    forget(buckets, address, former);
    take_in(buckets, address, lease);
}

/// Takes writes that were done, whatever leases their addresses had. There is room for those that
/// they put. Where they put none, all that they drop go in one pass over the buckets.
pub(crate) fn follow_writes(buckets: &mut Vec<Bucket>, writes: &Writes)
    requires len { vec_len buckets.old ≡ 16384 }
    requires room { HasRoom writes.now buckets.old.items }
    ensures len { vec_len buckets.new ≡ 16384 }
    ensures stands { (t : Tables) → Indexes buckets.old.items (devices t)
        → Indexes buckets.new.items (devices (write_all t writes.now)) }
{
    if has_puts(writes) {
        return follow_each(buckets, writes);
    }
    let Some(ends) = ends_of(writes) else {
        return;
    };
    forget_dropped(buckets, writes, ends);
}

// Drops the leases of those addresses between two whose leases writes drop.
fn forget_dropped(buckets: &mut Vec<Bucket>, writes: &Writes, ends: (Ip4, Ip4))
    requires { vec_len buckets.old ≡ 16384 }
    ensures len { vec_len buckets.new ≡ 16384 }
    ensures left { (place : ℕ) → place < 16384 → bucket_at buckets.new.items place
        ≡ without_dropped writes.now ends (bucket_at buckets.old.items place) }
{
    for place in 0..buckets.len() {
        forget_all_in(buckets, place, writes, ends);
    }
}

// Takes writes that were done one after the other, whatever leases their addresses had. There is
// room for those that they put.
fn follow_each(buckets: &mut Vec<Bucket>, writes: &Writes)
    requires len { vec_len buckets.old ≡ 16384 }
    requires room { HasRoom writes.now buckets.old.items }
    ensures len { vec_len buckets.new ≡ 16384 }
    ensures stands { (t : Tables) → Indexes buckets.old.items (devices t)
        → Indexes buckets.new.items (devices (write_all t writes.now)) }
{
    for place in 0..writes.len() {
        follow_write(buckets, writes.get(place));
    }
}

// Takes a write, whatever lease its address had.
fn follow_write(buckets: &mut Vec<Bucket>, write: &Write)
    requires len { vec_len buckets.old ≡ 16384 }
    requires room { (place : ℕ) → place < 16384 → puts_in place write.now ≡ true
        → length (bucket_at buckets.old.items place) < room_at buckets.old.items place }
    ensures len { vec_len buckets.new ≡ 16384 }
    ensures stands { (t : Tables) → Indexes buckets.old.items (devices t)
        → Indexes buckets.new.items (devices (written t write.now)) }
    ensures grown { (place : ℕ) → length (bucket_at buckets.new.items place)
        ≤ length (bucket_at buckets.old.items place) + 1 }
    ensures rooms { (place : ℕ)
        → room_at buckets.old.items place ≤ room_at buckets.new.items place }
{
    let Some((address, lease)) = change_of(write) else {
        return;
    };
    forget_everywhere(buckets, address);
    take_in(buckets, address, lease);
}

// Drops the lease of an address, in whichever bucket it is.
fn forget_everywhere(buckets: &mut Vec<Bucket>, address: Ip4)
    requires { vec_len buckets.old ≡ 16384 }
    ensures len { vec_len buckets.new ≡ 16384 }
    ensures left { (place : ℕ) → place < 16384 → bucket_at buckets.new.items place
        ≡ without_address address (bucket_at buckets.old.items place) }
    ensures few { (place : ℕ) → length (bucket_at buckets.new.items place)
        ≤ length (bucket_at buckets.old.items place) }
    ensures rooms { (place : ℕ)
        → room_at buckets.old.items place ≤ room_at buckets.new.items place }
{
    for place in 0..buckets.len() {
        forget_in(buckets, place, address);
    }
}

// Drops the lease that an address had.
fn forget(buckets: &mut Vec<Bucket>, address: Ip4, former: Option<DeviceLease>)
    requires { vec_len buckets.old ≡ 16384 }
    ensures len { vec_len buckets.new ≡ 16384 }
    ensures left { (place : ℕ) → bucket_at buckets.new.items place
        ≡ (if holds place address former
        then without_address address (bucket_at buckets.old.items place)
        else bucket_at buckets.old.items place) }
    ensures rooms { (place : ℕ)
        → room_at buckets.old.items place ≤ room_at buckets.new.items place }
{
    match place_of(former) {
        Some(place) => forget_in(buckets, place, address),
        None => {}
    }
}

// Takes the new lease of an address, if it has one.
fn take_in(buckets: &mut Vec<Bucket>, address: Ip4, lease: Option<DeviceLease>)
    requires len { vec_len buckets.old ≡ 16384 }
    requires room { (place : ℕ) → place < 16384 → holds place address lease ≡ true
        → length (bucket_at buckets.old.items place) < room_at buckets.old.items place }
    ensures len { vec_len buckets.new ≡ 16384 }
    ensures put { (place : ℕ) → bucket_at buckets.new.items place
        ≡ taken place address lease (bucket_at buckets.old.items place) }
    ensures rooms { (place : ℕ)
        → room_at buckets.old.items place ≤ room_at buckets.new.items place }
{
    let Some(given) = lease else {
        return;
    };
    match place_of(lease) {
        Some(place) => insert_in(buckets, place, address, given),
        None => {}
    }
}

// The bucket of the lease that a write puts, if it puts one that has a modem.
fn put_place(write: &Write) -> Option<usize>
    ensures place { (place : ℕ) → puts_in place write.now ≡ passes (λ n. n == place) result }
    ensures within { IfSome result (λ n. n < 16384) }
{
    let change = change_of(write)?;
    place_of(change.1)
}

// The bucket of a lease, if it has a modem.
fn place_of(lease: Option<DeviceLease>) -> Option<usize>
    ensures place { (place : ℕ) (address : Ip4)
        → holds place address lease ≡ passes (λ n. n == place) result }
    ensures within { IfSome result (λ n. n < 16384) }
{
    let lease = lease?;
    let owner = owner_of(lease.hold)?;
    Some(bucket_of(owner.0))
}
