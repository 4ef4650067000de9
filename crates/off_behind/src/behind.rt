ghost use Rattle.std.specs.Prelude.{◌≡◌, List, [], IfOk, OnOk, length, vec_len};
ghost use Rattle.off_base.specs.declared.addresses.Ip4.{Ip4};
ghost use Rattle.off_defs.specs.declared.tables.DeviceLease.{DeviceLease};
ghost use Rattle.off_account_rules.specs.Rows.{devices};
ghost use Rattle.off_defs.specs.State.{Tables};
ghost use Rattle.off_defs.specs.Tables.{write_all};
ghost use Rattle.off_behind.specs.Buckets.{bucket_of, bucket_at, Indexes, leases_in};
ghost use Rattle.off_behind.specs.Changes.{HasRoom, olds_of};
ghost use Rattle.off_behind.specs.Neighbours.{AreNeighbours, StandsIn};
ghost use Rattle.off_outside.specs.KeeperCalls.{Looks, WalksOnce};

use crate::bucket::Bucket;
use crate::buckets::{bucket_of, empty};
use crate::leases::{Neighbours, neighbours_among};
use crate::reading::take_all;
use crate::writing::{follow_writes, reserve_all, take_writes};
use off_base::{Ip4, Mac, Moment, NoMemory};
use off_defs::{DeviceLease, Writes};
use off_outside::{KeepErr, Keeper};
use std::alloc::Global;
use std::marker::Model;

/// All leases of devices that have a modem, in buckets by modem. In each bucket they stand in the
/// order of their addresses. Contracts see the buckets, and for how many leases each has room.
#[derive(Drop)]
pub struct Devices {
    buckets: Vec<Bucket>,
}

impl Model for Devices {
    ghost use Rattle.std.specs.Prelude.{◌≡◌, List, vec_len};
    ghost use Rattle.off_behind.specs.Buckets.{Bucket};

    ghost Value = { List Bucket };

    ghost view = { λ b. b.buckets.items };

    ghost invariant = { λ b. vec_len b.buckets ≡ 16384 };
}

impl Devices {
    /// No leases.
    pub fn new(alloc: Global) -> Result<Devices, NoMemory>
        ensures { IfOk result (λ index. Indexes index []) }
    {
        Ok(Devices {
            buckets: empty(alloc)?,
        })
    }

    /// The leases of a keeper's tables. It walks over them once, and commits nothing. After an
    /// error there is nothing; `Failed` comes only where the keeper counted a fault.
    pub fn of<K: Keeper>(alloc: Global, keeper: &mut K) -> Result<Devices, KeepErr>
        ensures told { Looks result (K.seen keeper.old) (K.seen keeper.new)
            (λ index t. Indexes index (devices t)) }
        ensures walks { WalksOnce (K.seen keeper.old) (K.seen keeper.new) }
    {
        let mut buckets = empty(alloc)?;
        take_all(alloc, keeper, &mut buckets)?;
        Ok(Devices { buckets })
    }

    /// Takes room for the leases that writes put. What is kept stays.
    pub fn ready(&mut self, writes: &Writes) -> Result<(), NoMemory>
        ensures room { OnOk result (HasRoom writes.now self.new) }
        ensures same { (leases : List (Ip4 × DeviceLease)) → Indexes self.old leases
            → Indexes self.new leases }
        ensures kept { leases_in self.new ≡ leases_in self.old }
    {
        reserve_all(&mut self.buckets, writes)
    }

    /// Takes writes that were done, with the leases that their addresses had, each before its own
    /// write. There is room in hand for those that they put.
    pub fn apply(&mut self, writes: &Writes, olds: &Vec<Option<DeviceLease>>)
        requires room { HasRoom writes.now self.old }
        requires all { vec_len olds.now ≡ length writes.now }
        ensures { (t : Tables) → olds.now.items ≡ olds_of t writes.now
            → Indexes self.old (devices t)
            → Indexes self.new (devices (write_all t writes.now)) }
    {
        take_writes(&mut self.buckets, writes, olds);
    }

    /// Takes writes that were done, whatever leases their addresses had. Where they put no device's
    /// lease, each bucket is gone over once for all that they drop; else it's searched for each
    /// address of a device's lease that is written. There is room in hand for those that they put.
    pub fn follow(&mut self, writes: &Writes)
        requires { HasRoom writes.now self.old }
        ensures { (t : Tables) → Indexes self.old (devices t)
            → Indexes self.new (devices (write_all t writes.now)) }
    {
        follow_writes(&mut self.buckets, writes);
    }

    /// What the leases behind the modem are to one of its devices. One bucket is gone over, once.
    pub fn neighbours(&self, now: Moment, modem: Mac, device: Mac) -> Neighbours
        ensures are { (leases : List (Ip4 × DeviceLease)) → Indexes self.now leases
            → AreNeighbours result now.0 modem device leases }
        ensures stands { (t : Tables) → Indexes self.now (devices t) → StandsIn result.own t }
    {
        neighbours_among(self.bucket(modem), now, modem, device)
    }

    // The bucket of a modem.
    fn bucket(&self, modem: Mac) -> &[(Ip4, DeviceLease)]
        ensures { result.now ≡ bucket_at self.now (bucket_of modem) }
    {
        let place = bucket_of(modem);
        self.buckets[place].leases()
    }
}
