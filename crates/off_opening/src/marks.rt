//! What the test of the tables keeps of each row, so that one walk over the rows is enough.

ghost use Rattle.std.specs.Prelude.{◌≡◌, ◌++◌, ◌∷◌, [], OnOk, IfErr, IfOk};
ghost use Rattle.std.specs.List.{filter_map};
ghost use Rattle.std.specs.Option.{option_map};
ghost use Rattle.off_defs.specs.declared.keys.Key.{Key};
ghost use Rattle.off_defs.specs.State.{Tables};
ghost use Rattle.off_defs.specs.Tables.{row_at};
ghost use Rattle.off_outside.specs.KeeperCalls.{Looks, WalksOnce};
ghost use Rattle.off_account_rules.specs.Good.{device_owner};
ghost use Rattle.off_opening.specs.Marks.{mark_of, marks_of, tie_of, marked_pool};
ghost use Rattle.off_opening.specs.Marks.{marked_device_pool};

use off_base::{Ip4, Mac};
use off_defs::{DeviceHold, Key, Pool, Row};
use off_outside::{KeepErr, Keeper};
use off_readers::{is_possible, next_behind, owner_of};
use std::alloc::Global;
use std::marker::Model;

/// What of a row is compared with other rows.
#[derive(Clone, Copy)]
pub(crate) enum Tie {
    /// Nothing.
    Free,
    /// A modem's subscriber and its class, by their numbers.
    Modem(u32, u32),
    /// A pool, whatever its values.
    Pool(Pool),
    /// The modem that has a lease, or `None` where it's declined.
    Lease(Option<Mac>),
    /// The address that a modem holds.
    Held(Ip4),
    /// The hub that a pool names.
    PoolHub(u32),
    /// The modem and its device that have a lease, or `None` where it's declined.
    Device(Option<(Mac, Mac)>),
}

/// A row, as the test of the tables keeps it.
#[derive(Clone, Copy)]
pub(crate) struct Mark {
    pub key: Key,
    /// Whether the row may stand at its key, whatever the other rows are.
    pub fits: bool,
    pub tie: Tie,
}

/// A pool with the number that it stands under. Contracts see the two as a pair.
#[derive(Clone, Copy)]
pub(crate) struct NumberedPool {
    pub number: u32,
    pub pool: Pool,
}

impl Model for NumberedPool {
    ghost use Rattle.std.specs.Prelude.{ℕ};
    ghost use Rattle.off_defs.specs.declared.tables.Pool.{Pool};

    ghost Value = { ℕ × Pool };

    ghost view = { λ p. (p.number, p.pool) };

    ghost inverse = { λ v. record { number = v.0; pool = v.1 } };
}

/// The marks of all rows, in the order of keys. It changes nothing, and walks once.
pub(crate) fn read_marks<K: Keeper>(alloc: Global, keeper: &mut K) -> Result<Vec<Mark>, KeepErr>
    ensures told { Looks result (K.seen keeper.old) (K.seen keeper.new)
        (λ marks t. marks.items ≡ marks_of t) }
    ensures walks { WalksOnce (K.seen keeper.old) (K.seen keeper.new) }
{
    let mut marks = Vec::new(alloc);
    let mut place = None;
    'walk: loop {
        let Some(entry) = next_behind(alloc, keeper, place)? else {
            return Ok(marks);
        };
        let key = entry.0;
        keep_mark(&mut marks, entry)?;
        place = Some(key);
    }
}

// Appends the mark of an entry.
fn keep_mark(marks: &mut Vec<Mark>, entry: (Key, Row)) -> Result<(), KeepErr>
    ensures ok { OnOk result (marks.new.items ≡ marks.old.items ++ mark_of entry ∷ []) }
    ensures err { IfErr result (λ err. err ≡ KeepErr.Memory) }
{
    let mark = Mark {
        key: entry.0,
        fits: is_possible(&entry.0, &entry.1),
        tie: tie_of(&entry.1),
    };
    match marks.push(mark) {
        Ok(()) => Ok(()),
        Err(_refused) => Err(KeepErr::Memory),
    }
}

fn tie_of(row: &Row) -> Tie
    ensures { result ≡ tie_of row.now }
{
    match row {
        Row::Modem(modem) => Tie::Modem(modem.subscriber, modem.class),
        Row::Pool(pool) => Tie::Pool(*pool),
        Row::Lease(lease) => Tie::Lease(owner_of(lease.hold)),
        Row::Held(address) => Tie::Held(*address),
        Row::PoolHub(hub) => Tie::PoolHub(*hub),
        Row::Site(_) | Row::Subscriber(_) | Row::AddOn(_) | Row::Class(_) | Row::Batch(_) => {
            Tie::Free
        }
        Row::Device(lease) => Tie::Device(device_owner(lease.hold)),
    }
}

// The modem and its device that have an address, or `None` where it's declined.
fn device_owner(hold: DeviceHold) -> Option<(Mac, Mac)>
    ensures { result ≡ device_owner hold }
{
    match hold {
        DeviceHold::Offered(modem, device) => Some((modem, device)),
        DeviceHold::Bound(modem, device) => Some((modem, device)),
        DeviceHold::Declined => None,
    }
}

/// What the row of a key is tied to, or `None` where the key has no row.
pub(crate) fn tie_at(marks: &[Mark], key: Key) -> Option<Tie>
    ensures { (t : Tables) → marks.now ≡ marks_of t → result ≡ option_map tie_of (row_at t key) }
{
    match marks.binary_search_by_key(&key, |mark| mark.key) {
        Ok(place) => Some(marks[place].tie),
        Err(_place) => None,
    }
}

/// All rows that are pools at the key of a pool, whatever their values, with their numbers, in the
/// order of keys.
pub(crate) fn pools_in(alloc: Global, marks: &[Mark]) -> Result<Vec<NumberedPool>, KeepErr>
    ensures ok { IfOk result (λ pools. pools.items ≡ filter_map marked_pool marks.now) }
    ensures err { IfErr result (λ err. err ≡ KeepErr.Memory) }
{
    match marks.iter().filter_map(pool_in).collect(alloc) {
        Ok(pools) => Ok(pools),
        Err(_refused) => Err(KeepErr::Memory),
    }
}

/// The same of pools for devices.
pub(crate) fn device_pools_in(alloc: Global, marks: &[Mark]) -> Result<Vec<NumberedPool>, KeepErr>
    ensures ok { IfOk result (λ pools. pools.items ≡ filter_map marked_device_pool marks.now) }
    ensures err { IfErr result (λ err. err ≡ KeepErr.Memory) }
{
    match marks.iter().filter_map(device_pool_in).collect(alloc) {
        Ok(pools) => Ok(pools),
        Err(_refused) => Err(KeepErr::Memory),
    }
}

fn device_pool_in(mark: &Mark) -> Option<NumberedPool>
    ensures { result ≡ marked_device_pool mark.now }
{
    match mark.key {
        Key::DevicePool(number) => match mark.tie {
            Tie::Pool(pool) => Some(NumberedPool { number, pool }),
            _ => None,
        },
        _ => None,
    }
}

fn pool_in(mark: &Mark) -> Option<NumberedPool>
    ensures { result ≡ marked_pool mark.now }
{
    match mark.key {
        Key::Pool(number) => match mark.tie {
            Tie::Pool(pool) => Some(NumberedPool { number, pool }),
            _ => None,
        },
        _ => None,
    }
}
