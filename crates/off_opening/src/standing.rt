//! Whether a row stands in the right relations to the other rows, by the marks of them all.

ghost use Rattle.std.specs.Prelude.{◌≡◌, ◌==◌, ◌&&◌, ℕ, count_by};
ghost use Rattle.std.specs.List.{list_all, list_any, find};
ghost use Rattle.off_opening.specs.declared.marks.Mark.{Mark};
ghost use Rattle.off_defs.specs.State.{Tables};
ghost use Rattle.off_account_rules.specs.Rows.{passes, has_address};
ghost use Rattle.off_account_rules.specs.Good.{raw_pools, is_there, is_apart, is_disjoint, is_mac};
ghost use Rattle.off_account_rules.specs.Good.{pool_stands, device_pool_stands};
ghost use Rattle.off_account_rules.specs.Good.{owner_holds, owns, is_of_hubs, names_hubs};
ghost use Rattle.off_account_rules.specs.Good.{is_hub_there};
ghost use Rattle.off_account_rules.specs.Good.{pool_hub_stands, stored_hub, stored_hub_of};
ghost use Rattle.off_defs.specs.declared.tables.Pool.{Pool};
ghost use Rattle.std.specs.Option.{option_map};
ghost use Rattle.off_opening.specs.Marks.{marks_of};
ghost use Rattle.off_opening.specs.Standing.{tie_stands, lease_tied, modem_tied, is_kept};
ghost use Rattle.off_opening.specs.Standing.{device_tied, is_sole, SeveralIn, IsCompared};

use crate::marks::{Mark, NumberedPool, Tie, tie_at};
use crate::owners::has_owner;
use off_base::{Ip4, Mac};
use off_defs::{Key, Pool};
use off_readers::{has_address, overlaps};
use std::cmp::Ordering;
use std::collections::BTreeSet;

/// What the rows are compared with besides single ones: all pools, and the devices that have
/// several leases.
#[derive(Drop)]
pub(crate) struct Compared {
    pub pools: Vec<NumberedPool>,
    pub device_pools: Vec<NumberedPool>,
    pub several: BTreeSet<(Mac, Mac)>,
}

/// Whether the row of a mark keeps its line, in tables that have these marks.
pub(crate) fn keeps(marks: &[Mark], compared: &Compared, mark: &Mark) -> bool
    ensures { (t : Tables) → marks.now ≡ marks_of t → IsCompared compared.now t
        → result ≡ is_kept t mark.now }
{
    mark.fits && stands_right(marks, compared, mark)
}

fn stands_right(marks: &[Mark], compared: &Compared, mark: &Mark) -> bool
    ensures { (t : Tables) → marks.now ≡ marks_of t → IsCompared compared.now t
        → result ≡ tie_stands t mark.now.key mark.now.tie }
{
    match mark.key {
        Key::Site => !name_hubs(marks),
        Key::Subscriber(_) | Key::Class(_) | Key::Batch(_) | Key::Hub(_) => true,
        Key::AddOn(subscriber, _) => is_there(marks, Key::Subscriber(subscriber)),
        Key::Modem(_) => match mark.tie {
            Tie::Modem(subscriber, class) => modem_stands(marks, subscriber, class),
            _ => false,
        },
        Key::Pool(number) => match mark.tie {
            Tie::Pool(pool) => pool_stands(compared, number, &pool),
            _ => false,
        },
        Key::Lease(address) => match mark.tie {
            Tie::Lease(owner) => lease_stands(marks, compared.pools.as_slice(), address, owner),
            _ => false,
        },
        Key::Held(mac) => match mark.tie {
            Tie::Held(address) => owns(marks, mac, address),
            _ => false,
        },
        Key::PoolHub(number) => match mark.tie {
            Tie::PoolHub(hub) => pool_hub_stands(marks, number, hub),
            _ => false,
        },
        Key::DevicePool(number) => match mark.tie {
            Tie::Pool(pool) => device_pool_stands(compared, number, &pool),
            _ => false,
        },
        Key::Device(address) => match mark.tie {
            Tie::Device(owner) => device_stands(compared, address, owner),
            _ => false,
        },
    }
}

fn is_there(marks: &[Mark], key: Key) -> bool
    ensures { (t : Tables) → marks.now ≡ marks_of t → result ≡ is_there t key }
{
    tie_at(marks, key).is_some()
}

// Whether there is a hub, or a pool names one.
fn name_hubs(marks: &[Mark]) -> bool
    ensures { (t : Tables) → marks.now ≡ marks_of t → result ≡ names_hubs t }
{
    any_of_hubs(marks)
}

fn any_of_hubs(marks: &[Mark]) -> bool
    ensures { result ≡ list_any (λ (mark : Mark). is_of_hubs mark.key) marks.now }
{
    marks.iter().any(is_of_hubs)
}

fn is_of_hubs(mark: &Mark) -> bool
    ensures { result ≡ is_of_hubs mark.now.key }
{
    matches!(mark.key, Key::Hub(_) | Key::PoolHub(_))
}

// The site of earlier days counts as the hub 0.
fn is_hub_there(marks: &[Mark], hub: u32) -> bool
    ensures { (t : Tables) → marks.now ≡ marks_of t → result ≡ is_hub_there t hub }
{
    is_there(marks, Key::Hub(hub)) || (hub == 0 && is_there(marks, Key::Site))
}

// A pool names a hub that is there.
fn pool_hub_stands(marks: &[Mark], number: u32, hub: u32) -> bool
    ensures { (t : Tables) → marks.now ≡ marks_of t → result ≡ pool_hub_stands t number hub }
{
    is_there(marks, Key::Pool(number)) && is_hub_there(marks, hub)
}

// The number of a pool's hub.
fn stored_hub(marks: &[Mark], number: u32) -> u32
    ensures { (t : Tables) → marks.now ≡ marks_of t → result ≡ stored_hub t number }
{
    match tie_at(marks, Key::PoolHub(number)) {
        Some(Tie::PoolHub(hub)) => hub,
        _ => 0,
    }
}

// The first pool that has the address.
fn pool_with(pools: &[NumberedPool], address: Ip4) -> Option<u32>
    ensures { result ≡ option_map (λ (other : ℕ × Pool). other.0)
        (find (λ (other : ℕ × Pool). has_address other.1 address) pools.now) }
{
    match pools.iter().find(|other| has_address(&other.pool, address)) {
        Some(other) => Some(other.number),
        None => None,
    }
}

// Whether the hub of an address is there.
fn has_hub(marks: &[Mark], pools: &[NumberedPool], address: Ip4) -> bool
    ensures { (t : Tables) → marks.now ≡ marks_of t → pools.now ≡ raw_pools t
        → result ≡ passes (is_hub_there t) (stored_hub_of t address) }
{
    match pool_with(pools, address) {
        Some(number) => is_hub_there(marks, stored_hub(marks, number)),
        None => false,
    }
}

// A modem has its subscriber and its class.
fn modem_stands(marks: &[Mark], subscriber: u32, class: u32) -> bool
    ensures { (t : Tables) → marks.now ≡ marks_of t → result ≡ modem_tied t subscriber class }
{
    is_there(marks, Key::Subscriber(subscriber)) && is_there(marks, Key::Class(class))
}

// A pool of modems is apart from the others, and has no address of one for devices.
fn pool_stands(compared: &Compared, number: u32, pool: &Pool) -> bool
    ensures { (t : Tables) → IsCompared compared.now t → result ≡ pool_stands t number pool.now }
{
    stands_apart(compared.pools.as_slice(), number, pool)
        && is_clear_of(compared.device_pools.as_slice(), pool)
}

// A pool for devices the other way round.
fn device_pool_stands(compared: &Compared, number: u32, pool: &Pool) -> bool
    ensures { (t : Tables) → IsCompared compared.now t
        → result ≡ device_pool_stands t number pool.now }
{
    stands_apart(compared.device_pools.as_slice(), number, pool)
        && is_clear_of(compared.pools.as_slice(), pool)
}

// None of these pools has an address of this one.
fn is_clear_of(pools: &[NumberedPool], pool: &Pool) -> bool
    ensures { result ≡ list_all (is_disjoint pool.now) pools.now }
{
    pools.iter().all(|other| is_disjoint(pool, other))
}

fn is_disjoint(pool: &Pool, other: &NumberedPool) -> bool
    ensures { result ≡ is_disjoint pool.now other.now }
{
    !overlaps(pool, &other.pool)
}

// No other pool has an address of this one or its relay.
fn stands_apart(pools: &[NumberedPool], number: u32, pool: &Pool) -> bool
    ensures { result ≡ list_all (is_apart number pool.now) pools.now }
{
    pools.iter().all(|other| is_apart(number, pool, other))
}

fn is_apart(number: u32, pool: &Pool, other: &NumberedPool) -> bool
    ensures { result ≡ is_apart number pool.now other.now }
{
    other.number == number || (!overlaps(pool, &other.pool) && other.pool.relay.0 != pool.relay.0)
}

// A lease has its one pool and that pool's hub, and who has it holds its address.
fn lease_stands(marks: &[Mark], pools: &[NumberedPool], address: Ip4, owner: Option<Mac>) -> bool
    ensures { (t : Tables) → marks.now ≡ marks_of t → pools.now ≡ raw_pools t
        → result ≡ lease_tied t address owner }
{
    is_in_one(pools, address)
        && has_hub(marks, pools, address)
        && owner_holds(marks, address, owner)
}

// A device's lease has its one pool for devices, and the device has no other lease.
fn device_stands(compared: &Compared, address: Ip4, owner: Option<(Mac, Mac)>) -> bool
    ensures { (t : Tables) → IsCompared compared.now t → result ≡ device_tied t address owner }
{
    is_in_one(compared.device_pools.as_slice(), address) && is_sole(&compared.several, owner)
}

// Whether who has a lease, if somebody has it, isn't among those that have several.
fn is_sole(several: &BTreeSet<(Mac, Mac)>, owner: Option<(Mac, Mac)>) -> bool
    ensures { (t : Tables) → SeveralIn t several.now → result ≡ is_sole t owner }
{
    match owner {
        Some(owner) => !has_owner(several, owner),
        None => true,
    }
}

// Whether exactly one pool has the address.
fn is_in_one(pools: &[NumberedPool], address: Ip4) -> bool
    ensures { result ≡ (count_by (λ other. has_address other.1 address) pools.now == 1) }
{
    pools_with(pools, address) == 1
}

// How many pools have the address.
fn pools_with(pools: &[NumberedPool], address: Ip4) -> usize
    ensures { result ≡ count_by (λ other. has_address other.1 address) pools.now }
{
    pools
        .iter()
        .filter(|other| has_address(&other.pool, address))
        .count()
}

// Whether who has an address holds it, where somebody has it.
fn owner_holds(marks: &[Mark], address: Ip4, owner: Option<Mac>) -> bool
    ensures { (t : Tables) → marks.now ≡ marks_of t → result ≡ owner_holds t address owner }
{
    match owner {
        Some(mac) => match tie_at(marks, Key::Held(mac)) {
            Some(Tie::Held(held)) => held.0 == address.0,
            _ => false,
        },
        None => true,
    }
}

// Whether the modem has the lease of the address.
fn owns(marks: &[Mark], mac: Mac, address: Ip4) -> bool
    ensures { (t : Tables) → marks.now ≡ marks_of t → result ≡ owns t mac address }
{
    match tie_at(marks, Key::Lease(address)) {
        Some(Tie::Lease(owner)) => is_owner(owner, mac),
        _ => false,
    }
}

fn is_owner(owner: Option<Mac>, mac: Mac) -> bool
    ensures { result ≡ passes (is_mac mac) owner }
{
    match owner {
        Some(other) => mac.cmp(&other) == Ordering::Equal,
        None => false,
    }
}
