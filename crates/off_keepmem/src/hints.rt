use crate::order::number_of;
use crate::shelf::ROOM;
use off_defs::Key;
use std::alloc::Global;

// By this a number is multiplied, so that numbers in a row have slots far from each other: 2^64
// over the golden ratio.
const SPREAD: u64 = 0x9e37_79b9_7f4a_7c15;

/// A spot of a table: which shelf, and which place on it.
#[derive(Clone, Copy)]
pub(crate) struct Spot {
    pub(crate) shelf: usize,
    pub(crate) place: usize,
}

/// Where entries stood when they were last put or looked for, so that most looks needn't search.
/// Each key has a slot, and keys of one slot share one spot. A spot may be out of date: whoever
/// goes there looks whose entry it is, so contracts say nothing of it, and a wrong one costs a
/// search. A slot holds its spot as one number: 64 times the shelf, and the place.
#[derive(Drop)]
pub(crate) struct Hints {
    spots: Vec<u32>,
}

impl Hints {
    /// None, and no slots. It takes no memory.
    pub(crate) fn new(alloc: Global) -> Hints {
        Hints {
            spots: Vec::new(alloc),
        }
    }

    /// The slot of a key, or 0 where there are none. The upper half of its number times `SPREAD` is
    /// a part of 2^32; the slot is as far among the slots. Those beyond 2^32 stay unused.
    pub(crate) fn slot_of(&self, key: &Key) -> usize {
        let spread = key_number(key).wrapping_mul(SPREAD) >> 32;
        (spread.wrapping_mul(self.spots.len() as u64) >> 32) as usize
    }

    /// Where an entry whose key has this slot may stand.
    pub(crate) fn get(&self, slot: usize) -> Spot {
        let counted = match self.spots.get(slot) {
            Some(counted) => *counted as usize,
            None => 0,
        };
        Spot {
            shelf: counted / ROOM,
            place: counted % ROOM,
        }
    }

    /// Remembers where an entry stands whose key has this slot.
    pub(crate) fn put(&mut self, slot: usize, spot: Spot) {
        let counted = spot.shelf.saturating_mul(ROOM).saturating_add(spot.place);
        let Ok(counted) = u32::try_from(counted) else {
            return;
        };
        if let Some(held) = self.spots.get_mut(slot) {
            *held = counted;
        }
    }

    /// Takes two slots at least for each entry that so many shelves have room for. Where there is
    /// no memory for them, the slots stay as they are; else no spot is remembered any more.
    pub(crate) fn grow(&mut self, alloc: Global, shelves: usize) {
        let wanted = shelves.saturating_mul(2 * ROOM);
        if self.spots.len() >= wanted {
            return;
        }
        if let Ok(spots) = vec![in alloc; 0; wanted.saturating_mul(2)] {
            self.spots = spots;
        }
    }
}

// A number for a key. Keys may share one.
fn key_number(key: &Key) -> u64 {
    match *key {
        Key::Site => 0,
        Key::Subscriber(number) => of_kind(1, u64::from(number)),
        Key::AddOn(number, add_on) => of_kind(2, u64::from(number) * 256 + u64::from(add_on)),
        Key::Modem(mac) => of_kind(3, number_of(&mac.0)),
        Key::Class(number) => of_kind(4, u64::from(number)),
        Key::Pool(number) => of_kind(5, u64::from(number)),
        Key::Lease(ip) => of_kind(6, u64::from(ip.0)),
        Key::Held(mac) => of_kind(7, number_of(&mac.0)),
        Key::Batch(number) => of_kind(8, number),
        Key::Hub(number) => of_kind(9, u64::from(number)),
        Key::PoolHub(number) => of_kind(10, u64::from(number)),
        Key::DevicePool(number) => of_kind(11, u64::from(number)),
        Key::Device(ip) => of_kind(12, u64::from(ip.0)),
    }
}

// A number within a kind of keys.
fn of_kind(kind: u8, number: u64) -> u64 {
    number.wrapping_add(u64::from(kind).wrapping_mul(1 << 56))
}
