ghost use Rattle.std.specs.Prelude.{◌≡◌, ◌<◌, ℕ, Some, None, length, slice_index_or, IfOk, IfSome};
ghost use Rattle.off_defs.specs.Tables.{key_written};
ghost use Rattle.off_tftp.specs.Agreements.{most_slots, none_remembered, slot_of, in_slot};
ghost use Rattle.off_tftp.specs.Agreements.{stands_for};
ghost use Rattle.off_tftp.specs.Agreements.{is_remembered, with_agreed, touches_all, touch_all};
ghost use Rattle.off_tftp.specs.Agreements.{without_row, without_rows, without_touched};

use crate::live::Live;
use off_base::{Ip4, Mac, Moment, NoMemory};
use off_defs::{Key, Write, Writes};
use std::alloc::Global;
use std::marker::Model;

// So many addresses have a slot of their own, twice as many as transfers may be live.
const SLOTS: usize = 512;

/// What the tables say of an address until a moment: to which modem it's bound, whose that is, and
/// the name of the modem's file there.
#[derive(Clone, Copy)]
pub struct Agreement {
    pub ip: Ip4,
    pub name: [u8; 32],
    pub modem: Mac,
    pub subscriber: u32,
    /// The end of the lease.
    pub until: Moment,
}

/// What was seen of agreement, at most one of an address, so that it needn't be looked for at each
/// acknowledgement. Each stands in the slot of its address. Two addresses may have one slot: of
/// these the one that was put last is remembered. Contracts see the slots.
#[derive(Drop)]
pub struct Agreements {
    slots: Vec<Option<Agreement>>,
}

impl Agreement {
    /// Whether it's of this transfer of an address, and hasn't come to its end.
    pub(crate) fn stands_for(&self, now: Moment, ip: Ip4, live: &Live) -> bool
        ensures { result ≡ stands_for now.0 ip live.now self.now }
    {
        now.0 < self.until.0
            && self.ip.0 == ip.0
            && live.modem() == self.modem
            && live.subscriber() == self.subscriber
            && live.name() == self.name.as_slice()
    }
}

impl Model for Agreements {
    ghost use Rattle.std.specs.Prelude.{◌≡◌, length};
    ghost use Rattle.off_tftp.specs.Agreements.{Slots, slots_code};

    ghost Value = { Slots };

    ghost coded = { slots_code };

    ghost view = { λ a. a.slots.items };

    ghost invariant = { λ a. length a.slots.items ≡ 512 };
}

impl Agreements {
    /// Nothing yet, and room for all that may be remembered.
    pub fn new(alloc: Global) -> Result<Agreements, NoMemory>
        ensures { IfOk result (λ agreements. agreements ≡ none_remembered) }
    {
        let Ok(slots) = vec![in alloc; None; SLOTS] else {
            return Err(NoMemory);
        };
        Ok(Agreements { slots })
    }

    /// Whether it's remembered that the tables agree with a transfer of an address.
    pub(crate) fn has(&self, now: Moment, ip: Ip4, live: &Live) -> bool
        ensures remembered { result ≡ is_remembered now.0 ip self.now live.now }
        ensures wide { length self.now ≡ most_slots }
    {
        match self.slots[slot_of(ip)] {
            Some(agreement) => agreement.stands_for(now, ip, live),
            None => false,
        }
    }

    /// Remembers what was seen, if anything was, in place of what stands in its slot. It takes no
    /// memory.
    pub fn put_seen(&mut self, agreed: Option<Agreement>)
        ensures put { self.new ≡ with_agreed agreed self.old }
        ensures there { IfSome agreed (λ a. in_slot a.ip self.new ≡ agreed) }
    {
        if let Some(agreement) = agreed {
            self.slots[slot_of(agreement.ip)] = Some(agreement);
        }
    }

    /// Forgets what these writes may have ended: a lease that is written ends that of its address,
    /// and a row of a modem, a pool or a hub, which clerks write seldom, ends all. It takes no
    /// memory.
    pub fn forget(&mut self, writes: &Writes)
        ensures { self.new ≡ without_touched writes.now self.old }
    {
        if touch_all(writes) {
            forget_all(&mut self.slots);
            return;
        }
        forget_leases(&mut self.slots, writes);
    }
}

// The slot of an address. Addresses in a row have different ones.
fn slot_of(ip: Ip4) -> usize
    ensures slot { result ≡ slot_of ip }
    ensures within { result < 512 }
{
    ip.0 as usize % SLOTS
}

// The key that a write changes.
fn key_of(write: &Write) -> Key
    ensures { result ≡ key_written write.now }
{
    match write {
        Write::Put(key, _) => *key,
        Write::Drop(key) => *key,
    }
}

// Whether a row is written by which any address may be judged.
fn touch_all(writes: &Writes) -> bool
    ensures { result ≡ touch_all writes.now }
{
    for place in 0..writes.len() {
        if touches_all(key_of(writes.get(place))) {
            return true;
        }
    }
    false
}

// Whether any address may be judged by rows of this key.
fn touches_all(key: Key) -> bool
    ensures { result ≡ touches_all key }
{
    match key {
        Key::Modem(_) | Key::Pool(_) | Key::Hub(_) | Key::PoolHub(_) => true,
        Key::Site | Key::Subscriber(_) | Key::AddOn(_, _) | Key::Class(_) => false,
        Key::Lease(_) | Key::Held(_) | Key::Batch(_) => false,
        Key::DevicePool(_) | Key::Device(_) => false,
    }
}

fn forget_all(slots: &mut Vec<Option<Agreement>>)
    ensures none { (k : ℕ) → slice_index_or slots.new.items k None ≡ None }
    ensures len { length slots.new.items ≡ length slots.old.items }
{
    for slot in slots.iter_mut() {
        *slot = None;
    }
}

fn forget_leases(slots: &mut Vec<Option<Agreement>>, writes: &Writes)
    requires { length slots.old.items ≡ 512 }
    ensures rows { slots.new.items ≡ without_rows writes.now slots.old.items }
    ensures len { length slots.new.items ≡ 512 }
{
    for place in 0..writes.len() {
        forget_row(slots, key_of(writes.get(place)));
    }
}

// Forgets what stands in the slot of a lease's address.
fn forget_row(slots: &mut Vec<Option<Agreement>>, key: Key)
    requires { length slots.old.items ≡ 512 }
    ensures row { slots.new.items ≡ without_row key slots.old.items }
    ensures len { length slots.new.items ≡ 512 }
{
    if let Key::Lease(ip) = key {
        slots[slot_of(ip)] = None;
    }
}
