//! A bucket of leases, in the order of their addresses.

ghost use Rattle.std.specs.Prelude.{◌≡◌, ◌≤◌, ◌<◌, ◌+◌, ◌++◌, ◌∷◌, [], not};
ghost use Rattle.std.specs.Prelude.{length, OnOk, vec_len};
ghost use Rattle.std.specs.List.{insert};
ghost use Rattle.std.specs.Ordering.{is_gt, eq_by_cmp};
ghost use Rattle.std.specs.Vec.{vec_capacity};
ghost use Rattle.off_behind.specs.Changes.{by_address, place_in, without_address};
ghost use Rattle.off_behind.specs.Drops.{is_dropped, without_dropped};

use crate::changes::is_dropped;
use off_base::{Ip4, NoMemory};
use off_defs::{DeviceLease, Writes};
use std::alloc::Global;
use std::cmp::Ordering;
use std::marker::Model;

/// Leases of devices by their addresses. Contracts see them, and for how many there is room.
#[derive(Drop)]
pub(crate) struct Bucket {
    leases: Vec<(Ip4, DeviceLease)>,
}

impl Model for Bucket {
    ghost use Rattle.std.specs.Vec.{vec_capacity};
    ghost use Rattle.off_behind.specs.Buckets.{Bucket as BucketHeld};

    ghost Value = { BucketHeld };

    ghost view = { λ b. (b.leases.items, vec_capacity b.leases) };
}

impl Bucket {
    /// No leases. It takes no memory.
    pub(crate) fn new(alloc: Global) -> Bucket
        ensures { result.0 ≡ [] }
    {
        Bucket {
            leases: Vec::new(alloc),
        }
    }

    /// Its leases.
    pub(crate) fn leases(&self) -> &[(Ip4, DeviceLease)]
        ensures { result.now ≡ self.now.0 }
    {
        self.leases.as_slice()
    }

    /// Appends a lease.
    pub(crate) fn push(&mut self, address: Ip4, lease: DeviceLease) -> Result<(), NoMemory>
        ensures leases { OnOk result (self.new.0 ≡ self.old.0 ++ (address, lease) ∷ []) }
        ensures room { self.old.1 ≤ self.new.1 }
    {
        match self.leases.push((address, lease)) {
            Ok(()) => Ok(()),
            Err(_refused) => Err(NoMemory),
        }
    }

    /// Takes room for so many more.
    pub(crate) fn reserve(&mut self, more: usize) -> Result<(), NoMemory>
        ensures leases { self.new.0 ≡ self.old.0 }
        ensures room { OnOk result (length self.old.0 + more ≤ self.new.1) }
        ensures kept { self.old.1 ≤ self.new.1 }
    {
        match self.leases.reserve(more) {
            Ok(()) => Ok(()),
            Err(_refused) => Err(NoMemory),
        }
    }

    /// Drops the lease of an address, if it's here.
    pub(crate) fn forget(&mut self, address: Ip4)
        ensures leases { self.new.0 ≡ without_address address self.old.0 }
        ensures room { self.old.1 ≤ self.new.1 }
    {
        self.leases.retain(
            |entry: &(Ip4, DeviceLease)| -> bool
                ensures { result ≡ not (eq_by_cmp by_address address entry.now.0) }
            { is_other(address, entry.0) },
        );
    }

    /// Drops the leases of those addresses between two whose leases writes drop.
    pub(crate) fn forget_all(&mut self, writes: &Writes, ends: (Ip4, Ip4))
        ensures leases { self.new.0 ≡ without_dropped writes.now ends self.old.0 }
        ensures room { self.old.1 ≤ self.new.1 }
    {
        self.leases.retain(
            |entry: &(Ip4, DeviceLease)| -> bool
                ensures { result ≡ not (is_dropped writes.entry.now ends entry.now.0) }
            { !is_dropped(writes, ends, entry.0) },
        );
    }

    /// Puts the lease of an address that has none here in front of those of higher ones. There is
    /// room for it.
    pub(crate) fn insert(&mut self, address: Ip4, lease: DeviceLease)
        requires { length self.old.0 < self.old.1 }
        ensures leases { self.new.0
            ≡ insert self.old.0 (place_in address self.old.0) (address, lease) }
        ensures room { self.old.1 ≤ self.new.1 }
    {
        let place = place_in(&self.leases, address);
        insert_at(&mut self.leases, place, (address, lease));
    }
}

// Inserts an entry where there is room for it.
fn insert_at(leases: &mut Vec<(Ip4, DeviceLease)>, place: usize, entry: (Ip4, DeviceLease))
    requires within { place ≤ vec_len leases.old }
    requires room { vec_len leases.old < vec_capacity leases.old }
    ensures items { leases.new.items ≡ insert leases.old.items place entry }
    ensures capacity { vec_capacity leases.old ≤ vec_capacity leases.new }
{
    let _is_done = leases.insert(place, entry).is_ok();
}

// Where the lease of an address is to be put.
fn place_in(leases: &Vec<(Ip4, DeviceLease)>, address: Ip4) -> usize
    ensures place { result ≡ place_in address leases.now.items }
    ensures within { result ≤ vec_len leases.now }
{
    let mut place = 0;
    'seek: while place < leases.len() && is_above(address, leases[place].0) {
        place += 1;
    }
    place
}

fn is_above(address: Ip4, other: Ip4) -> bool
    ensures { result ≡ is_gt (by_address address other) }
{
    address.0.cmp(&other.0) == Ordering::Greater
}

/// Whether it's another address.
pub(crate) fn is_other(address: Ip4, other: Ip4) -> bool
    ensures { result ≡ not (eq_by_cmp by_address address other) }
{
    address.0.cmp(&other.0) != Ordering::Equal
}
