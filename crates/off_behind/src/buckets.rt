//! Buckets of leases, by modem.

ghost use Rattle.std.specs.Prelude.{◌≡◌, ◌<◌, ◌≤◌, ◌+◌, ◌++◌, ◌∷◌, [], ℕ, IfOk, OnOk};
ghost use Rattle.std.specs.Prelude.{length, slice_index, vec_len};
ghost use Rattle.std.specs.List.{insert};
ghost use Rattle.off_behind.specs.Buckets.{bucket_of, bucket_at, room_at, Becomes};
ghost use Rattle.off_behind.specs.Changes.{place_in, without_address};
ghost use Rattle.off_behind.specs.Drops.{without_dropped};

use crate::bucket::Bucket;
use off_base::{Ip4, Mac, NoMemory};
use off_defs::{DeviceLease, Writes};
use std::alloc::Global;

// How many buckets there are; modems spread over them by the last bytes of their addresses. Among
// the most leases that tables may have, 262,144, a bucket has 16 in the mean: a message goes over
// one bucket, some four times where it changes a lease.
const BUCKETS: usize = 16384;

/// Buckets without leases. They take no memory of their own.
pub(crate) fn empty(alloc: Global) -> Result<Vec<Bucket>, NoMemory>
    ensures len { IfOk result (λ buckets. vec_len buckets ≡ 16384) }
    ensures none { IfOk result (λ buckets. (place : ℕ) → bucket_at buckets.items place ≡ []) }
{
    let mut buckets = Vec::new(alloc);
    for _place in 0..BUCKETS {
        if buckets.push(Bucket::new(alloc)).is_err() {
            return Err(NoMemory);
        }
    }
    Ok(buckets)
}

/// Where the bucket of a modem stands.
pub(crate) fn bucket_of(modem: Mac) -> usize
    ensures within { result < 16384 }
    ensures place { result ≡ bucket_of modem }
{
    let high = usize::from(modem.0[4]);
    let low = usize::from(modem.0[5]);
    (high * 256 + low) % BUCKETS
}

/// Appends a lease to a bucket.
pub(crate) fn push_to(
    buckets: &mut Vec<Bucket>,
    place: usize,
    address: Ip4,
    lease: DeviceLease,
) -> Result<(), NoMemory>
    requires { place < vec_len buckets.old }
    ensures len { vec_len buckets.new ≡ vec_len buckets.old }
    ensures items { OnOk result (Becomes place
        (bucket_at buckets.old.items place ++ (address, lease) ∷ [])
        buckets.old.items buckets.new.items) }
{
    buckets[place].push(address, lease)
}

/// Takes room for so many more leases in a bucket.
pub(crate) fn reserve_in(
    buckets: &mut Vec<Bucket>,
    place: usize,
    more: usize,
) -> Result<(), NoMemory>
    requires { place < vec_len buckets.old }
    ensures len { vec_len buckets.new ≡ vec_len buckets.old }
    ensures same { Becomes place (bucket_at buckets.old.items place)
        buckets.old.items buckets.new.items }
    ensures room { OnOk result
        (length (bucket_at buckets.old.items place) + more ≤ room_at buckets.new.items place) }
{
    buckets[place].reserve(more)
}

/// Drops the lease of an address from a bucket.
pub(crate) fn forget_in(buckets: &mut Vec<Bucket>, place: usize, address: Ip4)
    requires { place < vec_len buckets.old }
    ensures len { vec_len buckets.new ≡ vec_len buckets.old }
    ensures left { Becomes place (without_address address (bucket_at buckets.old.items place))
        buckets.old.items buckets.new.items }
{
    buckets[place].forget(address);
}

/// Drops the leases of those addresses between two whose leases writes drop, from a bucket.
pub(crate) fn forget_all_in(
    buckets: &mut Vec<Bucket>,
    place: usize,
    writes: &Writes,
    ends: (Ip4, Ip4),
)
    requires { place < vec_len buckets.old }
    ensures len { vec_len buckets.new ≡ vec_len buckets.old }
    ensures left { Becomes place
        (without_dropped writes.now ends (bucket_at buckets.old.items place))
        buckets.old.items buckets.new.items }
{
    buckets[place].forget_all(writes, ends);
}

/// Puts the lease of an address into a bucket that has none of it, and room for it.
pub(crate) fn insert_in(buckets: &mut Vec<Bucket>, place: usize, address: Ip4, lease: DeviceLease)
    requires place { place < vec_len buckets.old }
    requires room { length (bucket_at buckets.old.items place)
        < room_at buckets.old.items place }
    ensures len { vec_len buckets.new ≡ vec_len buckets.old }
    ensures put { let leases = bucket_at buckets.old.items place in
        Becomes place (insert leases (place_in address leases) (address, lease))
        buckets.old.items buckets.new.items }
{
    buckets[place].insert(address, lease);
}
