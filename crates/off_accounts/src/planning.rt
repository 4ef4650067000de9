//! What a command writes, once its rules are passed. The rows that it puts are equal to their
//! sources.

ghost use Rattle.std.specs.Prelude.{◌≡◌, [], ◌∷◌, true, is_some, MatchResult, map};
ghost use Rattle.off_defs.specs.declared.keys.Key.TheVariants as key;
ghost use Rattle.off_defs.specs.declared.tables.Row.TheVariants as row;
ghost use Rattle.off_defs.specs.declared.writes.Write.TheVariants.{Drop};
ghost use Rattle.off_outside.specs.declared.keeper.KeepErr.TheVariants.{Memory};
ghost use Rattle.off_outside.specs.KeeperCalls.{Looks, Spent};
ghost use Rattle.off_account_rules.specs.Changes.{add_on_keys};
ghost use Rattle.off_orders.specs.Clerk.{pool_hub_write, removal_writes, writes_of};
ghost use Rattle.off_accounts.specs.Deciding.{most_calls, most_calls_removing};
ghost use Rattle.off_accounts.specs.Tests.{SubjectStands, IsSubject};
ghost use Rattle.off_accounts.specs.Walking.{drop_calls, drop_calls_removing, lease_calls};
ghost use Rattle.off_accounts.specs.Searches.{drops_from};
ghost use Rattle.off_accounts.specs.declared.whose.Whose.TheVariants.{Modems as OfModems};
ghost use Rattle.off_accounts.specs.declared.whose.Whose.TheVariants.{Devices as OfDevices};
ghost use Rattle.off_defs.specs.State.{Tables};

use crate::dropping::with_drops;
use crate::subject::Subject;
use crate::whose::Whose;
use off_defs::{ADD_ONS, Class, Key, Pool, Row, SharedSettings, Write, Writes};
use off_orders::Command;
use off_outside::{KeepErr, Keeper};
use std::alloc::Global;

/// What the command writes.
pub(crate) fn writes_for<K: Keeper>(
    alloc: Global,
    keeper: &mut K,
    subject: &Subject,
    c: &Command,
) -> Result<Writes, KeepErr>
    ensures told { Looks result (K.seen keeper.old) (K.seen keeper.new)
        (λ writes t. IsSubject c.now subject.now t → writes ≡ writes_of t c.now) }
    ensures spent { is_some (most_calls c.now) ≡ true
        → Spent 0 (K.seen keeper.old) (K.seen keeper.new) }
    ensures walks { (t : Tables) → (K.seen keeper.old).tables t
        → Spent (drop_calls c.now subject.now.pool t)
        (K.seen keeper.old) (K.seen keeper.new) }
{
    match c {
        Command::PutHub(n, site) => one_write(
            alloc,
            Write::Put(Key::Hub(*n), Row::Site(site.copy())),
        ),
        Command::PutSubscriber(n, subscriber) => one_write(
            alloc,
            Write::Put(Key::Subscriber(*n), Row::Subscriber(subscriber.copy())),
        ),
        Command::PutAddOn(n, number, settings) => one_write(
            alloc,
            Write::Put(Key::AddOn(*n, *number), add_on_row(settings)?),
        ),
        Command::PutModem(mac, modem) => one_write(
            alloc,
            Write::Put(Key::Modem(*mac), Row::Modem(modem.copy())),
        ),
        Command::PutClass(n, class) => one_write(
            alloc,
            Write::Put(Key::Class(*n), class_row(class)?),
        ),
        Command::PutPool(n, pool, hub) => pool_writes(
            alloc,
            keeper,
            Write::Put(Key::Pool(*n), Row::Pool(*pool)),
            pool_hub_write(*n, *hub),
            subject.pool,
            Some(*pool),
        ),
        Command::PutDevicePool(n, pool) => device_pool_writes(
            alloc,
            keeper,
            Write::Put(Key::DevicePool(*n), Row::Pool(*pool)),
            subject.pool,
            Some(*pool),
        ),
        Command::Remove(key) => removal_writes(alloc, keeper, subject, key),
        Command::Show(_) | Command::Import { .. } => Ok(Writes::new(alloc)),
    }
}

fn removal_writes<K: Keeper>(
    alloc: Global,
    keeper: &mut K,
    subject: &Subject,
    key: &Key,
) -> Result<Writes, KeepErr>
    ensures told { Looks result (K.seen keeper.old) (K.seen keeper.new)
        (λ writes t. SubjectStands t key.now subject.now → writes ≡ removal_writes t key.now) }
    ensures spent { is_some (most_calls_removing key.now) ≡ true
        → Spent 0 (K.seen keeper.old) (K.seen keeper.new) }
    ensures walks { (t : Tables) → (K.seen keeper.old).tables t
        → Spent (drop_calls_removing key.now subject.now.pool t)
        (K.seen keeper.old) (K.seen keeper.new) }
{
    match *key {
        Key::Subscriber(n) => subscriber_drops(alloc, n),
        Key::Pool(n) => pool_writes(
            alloc,
            keeper,
            Write::Drop(*key),
            Write::Drop(Key::PoolHub(n)),
            subject.pool,
            None,
        ),
        Key::DevicePool(_) => {
            device_pool_writes(alloc, keeper, Write::Drop(*key), subject.pool, None)
        }
        Key::Site | Key::AddOn(_, _) | Key::Modem(_) => one_write(alloc, Write::Drop(*key)),
        Key::Class(_) | Key::Lease(_) => one_write(alloc, Write::Drop(*key)),
        Key::Held(_) | Key::Batch(_) | Key::Hub(_) => one_write(alloc, Write::Drop(*key)),
        Key::PoolHub(_) | Key::Device(_) => one_write(alloc, Write::Drop(*key)),
    }
}

// A pool's own write and that of its hub, and behind them the drops of the leases that are lost by
// them.
fn pool_writes<K: Keeper>(
    alloc: Global,
    keeper: &mut K,
    write: Write,
    hub: Write,
    old: Option<Pool>,
    new: Option<Pool>,
) -> Result<Writes, KeepErr>
    ensures told { Looks result (K.seen keeper.old) (K.seen keeper.new)
        (λ writes t. writes ≡ write ∷ hub ∷ drops_from OfModems old new t) }
    ensures walks { (t : Tables) → (K.seen keeper.old).tables t
        → Spent (lease_calls OfModems old t) (K.seen keeper.old) (K.seen keeper.new) }
{
    let first = two_writes(alloc, write, hub)?;
    with_drops(alloc, keeper, first, Whose::Modems, old, new)
}

// A write of a pool for devices, and behind it the drops of the leases that are lost by it.
fn device_pool_writes<K: Keeper>(
    alloc: Global,
    keeper: &mut K,
    write: Write,
    old: Option<Pool>,
    new: Option<Pool>,
) -> Result<Writes, KeepErr>
    ensures told { Looks result (K.seen keeper.old) (K.seen keeper.new)
        (λ writes t. writes ≡ write ∷ drops_from OfDevices old new t) }
    ensures walks { (t : Tables) → (K.seen keeper.old).tables t
        → Spent (lease_calls OfDevices old t) (K.seen keeper.old) (K.seen keeper.new) }
{
    let first = one_write(alloc, write)?;
    with_drops(alloc, keeper, first, Whose::Devices, old, new)
}

// A pool's hub has a row where it isn't the hub 0.
fn pool_hub_write(n: u32, hub: u32) -> Write
    ensures { result ≡ pool_hub_write n hub }
{
    if hub == 0 {
        Write::Drop(Key::PoolHub(n))
    } else {
        Write::Put(Key::PoolHub(n), Row::PoolHub(hub))
    }
}

fn one_write(alloc: Global, write: Write) -> Result<Writes, KeepErr>
    ensures { MatchResult result (λ writes. writes ≡ write ∷ []) (λ err. err ≡ Memory) }
{
    let mut writes = Writes::new(alloc);
    writes.push(write)?;
    Ok(writes)
}

fn two_writes(alloc: Global, first: Write, second: Write) -> Result<Writes, KeepErr>
    ensures { MatchResult result
        (λ writes. writes ≡ first ∷ second ∷ []) (λ err. err ≡ Memory) }
{
    let mut writes = Writes::new(alloc);
    writes.push(first)?;
    writes.push(second)?;
    Ok(writes)
}

// The drops of a subscriber and of all add-ons that it may have.
fn subscriber_drops(alloc: Global, n: u32) -> Result<Writes, KeepErr>
    ensures { MatchResult result
        (λ writes. writes ≡ Drop (key.Subscriber n) ∷ map Drop (add_on_keys n))
        (λ err. err ≡ Memory) }
{
    let mut writes = Writes::new(alloc);
    writes.push(Write::Drop(Key::Subscriber(n)))?;
    for number in 0..ADD_ONS {
        writes.push(Write::Drop(Key::AddOn(n, number)))?;
    }
    Ok(writes)
}

fn add_on_row(settings: &SharedSettings) -> Result<Row, KeepErr>
    ensures { MatchResult result (λ made. made ≡ row.AddOn settings.now) (λ err. err ≡ Memory) }
{
    Ok(Row::AddOn(settings.share()?))
}

fn class_row(class: &Class) -> Result<Row, KeepErr>
    ensures { MatchResult result (λ made. made ≡ row.Class class.now) (λ err. err ≡ Memory) }
{
    Ok(Row::Class(class.copy()?))
}
