ghost use Rattle.std.specs.Prelude.{◌≡◌, ◌∷◌, [], ◌++◌, Some, OnOk, cond};
ghost use Rattle.off_defs.specs.declared.keys.Key.TheVariants.{Device};
ghost use Rattle.off_defs.specs.declared.writes.Write.TheVariants.{Drop};
ghost use Rattle.off_account_rules.specs.Changes.{held_drop, gives_up};
ghost use Rattle.off_orders.specs.Clerk.{lease_drops, device_drop};
ghost use Rattle.off_account_rules.specs.Good.{owner_of};
ghost use Rattle.off_account_rules.specs.Rows.{lease_of, device_of};
ghost use Rattle.off_defs.specs.State.{Tables};
ghost use Rattle.off_outside.specs.KeeperCalls.{Looks, Spent};
ghost use Rattle.off_accounts.specs.Searches.{drops_from, drops_at, lost_drops};
ghost use Rattle.off_accounts.specs.Walking.{WalksOver, is_lease_in, lease_calls};

use crate::lost::{Lost, before_lost, gives_up, is_past_lost};
use crate::whose::Whose;
use off_base::{Ip4, NoMemory};
use off_defs::{Hold, Key, Lease, Pool, Row, Write, Writes};
use off_outside::{KeepErr, Keeper};
use off_readers::{next_behind, owner_of};
use std::alloc::Global;

/// Appends the drops of the leases that are lost where a pool changes, and of the rows of the
/// modems that hold them.
#[tactic(auto, using(crate::proofs::WalkedLemmas::walk_ends))]
pub(crate) fn drop_lost<K: Keeper>(
    alloc: Global,
    keeper: &mut K,
    lost: &Lost,
    writes: &mut Writes,
) -> Result<(), KeepErr>
    ensures told { Looks result (K.seen keeper.old) (K.seen keeper.new)
        (λ _ t. writes.new
        ≡ writes.old ++ drops_from lost.now.whose (Some lost.now.old) lost.now.new t) }
    ensures walks { WalksOver (is_lease_in lost.now.whose lost.now.old)
        (K.seen keeper.old) (K.seen keeper.new) }
{
    let mut place = before_lost(lost);
    'walk: loop {
        let Some((key, row)) = next_behind(alloc, keeper, Some(place))? else {
            return Ok(());
        };
        if is_past_lost(lost, key) {
            return Ok(());
        }
        push_drops(lost, &key, &row, writes)?;
        place = key;
    }
}

/// These writes, and behind them the drops of the leases that are lost where one pool, or none,
/// takes the place of another one, or none.
#[tactic(auto, using(crate::proofs::WalkedLemmas::drop_rules))]
pub(crate) fn with_drops<K: Keeper>(
    alloc: Global,
    keeper: &mut K,
    first: Writes,
    whose: Whose,
    old: Option<Pool>,
    new: Option<Pool>,
) -> Result<Writes, KeepErr>
    ensures told { Looks result (K.seen keeper.old) (K.seen keeper.new)
        (λ writes t. writes ≡ first ++ drops_from whose old new t) }
    ensures walks { (t : Tables) → (K.seen keeper.old).tables t
        → Spent (lease_calls whose old t) (K.seen keeper.old) (K.seen keeper.new) }
{
    let Some(old) = old else {
        return Ok(first);
    };
    let mut writes = first;
    drop_lost(alloc, keeper, &Lost { whose, old, new }, &mut writes)?;
    Ok(writes)
}

// Appends what is dropped of an entry.
fn push_drops(lost: &Lost, key: &Key, row: &Row, writes: &mut Writes) -> Result<(), NoMemory>
    ensures { OnOk result (writes.new ≡ writes.old ++ drops_at lost.now (key.now, row.now)) }
{
    match lost.whose {
        Whose::Modems => push_lease(lost, key, row, writes),
        Whose::Devices => push_device(lost, key, row, writes),
    }
}

fn push_lease(lost: &Lost, key: &Key, row: &Row, writes: &mut Writes) -> Result<(), NoMemory>
    ensures { OnOk result (writes.new
        ≡ writes.old ++ lost_drops lease_drops lost.now (lease_of (key.now, row.now))) }
{
    match key {
        Key::Lease(address) => match row {
            Row::Lease(lease) => push_given_up(lost, *address, lease, writes),
            _ => Ok(()),
        },
        _ => Ok(()),
    }
}

fn push_given_up(
    lost: &Lost,
    address: Ip4,
    lease: &Lease,
    writes: &mut Writes,
) -> Result<(), NoMemory>
    ensures { OnOk result (writes.new
        ≡ writes.old ++ lost_drops lease_drops lost.now (Some (address, lease.now))) }
{
    if !gives_up(lost, address) {
        return Ok(());
    }
    writes.push(Write::Drop(Key::Lease(address)))?;
    push_held(lease.hold, writes)
}

// Appends the drop of the row of who holds an address.
fn push_held(hold: Hold, writes: &mut Writes) -> Result<(), NoMemory>
    ensures { OnOk result (writes.new ≡ writes.old ++ held_drop (owner_of hold)) }
{
    match owner_of(hold) {
        Some(mac) => writes.push(Write::Drop(Key::Held(mac))),
        None => Ok(()),
    }
}

fn push_device(lost: &Lost, key: &Key, row: &Row, writes: &mut Writes) -> Result<(), NoMemory>
    ensures { OnOk result (writes.new
        ≡ writes.old
        ++ lost_drops (λ lease. device_drop lease ∷ []) lost.now (device_of (key.now, row.now))) }
{
    match key {
        Key::Device(address) => match row {
            Row::Device(_) => push_device_given_up(lost, *address, writes),
            _ => Ok(()),
        },
        _ => Ok(()),
    }
}

fn push_device_given_up(lost: &Lost, address: Ip4, writes: &mut Writes) -> Result<(), NoMemory>
    ensures { OnOk result (writes.new ≡ writes.old
        ++ cond (gives_up (Some lost.now.old) lost.now.new address)
        (Drop (Device address) ∷ []) []) }
{
    if !gives_up(lost, address) {
        return Ok(());
    }
    writes.push(Write::Drop(Key::Device(address)))
}
