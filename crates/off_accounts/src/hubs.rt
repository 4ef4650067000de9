//! Which pool has a hub.

ghost use Rattle.std.specs.Prelude.{◌≡◌, Some, None, option_map, nat_lt, if◌then◌else◌};
ghost use Rattle.off_defs.specs.Kinds.{kind_of};
ghost use Rattle.off_defs.specs.State.{Tables};
ghost use Rattle.off_rows.specs.KeyBytes.{IsRanged};
ghost use Rattle.off_account_rules.specs.Rows.{pool_of};
ghost use Rattle.off_orders.specs.Clerk.{hub_in_use};
ghost use Rattle.off_outside.specs.KeeperCalls.{Looks, Spent};
ghost use Rattle.off_accounts.specs.Searches.{least_of, of_hub_in, hub_rule};
ghost use Rattle.off_accounts.specs.Walking.{hub_calls};

use off_defs::{Key, Row};
use off_orders::Rule;
use off_outside::{KeepErr, Keeper};
use off_readers::{is_past_pools, is_possible, next_behind, read_pool_hub};
use std::alloc::Global;

/// The rule that a pool has the hub, by the least such pool, or `None` where no pool has it.
pub(crate) fn hub_in_use<K: Keeper>(
    alloc: Global,
    keeper: &mut K,
    hub: u32,
) -> Result<Option<Rule>, KeepErr>
    ensures told { Looks result (K.seen keeper.old) (K.seen keeper.new)
        (λ broken t. broken ≡ hub_in_use t hub) }
    ensures walks { (t : Tables) → (K.seen keeper.old).tables t
        → Spent (hub_calls t) (K.seen keeper.old) (K.seen keeper.new) }
{
    let found = least_of_hub(alloc, keeper, hub)?;
    Ok(hub_rule(found))
}

fn hub_rule(found: Option<u32>) -> Option<Rule>
    ensures { result ≡ hub_rule found }
{
    match found {
        Some(n) => Some(Rule::HubInUse(n)),
        None => None,
    }
}

// The least pool whose hub it is. It walks over the pools, and looks up the hub of each.
#[tactic(auto, using(crate::proofs::HubLemmas::hub_walk_ends))]
fn least_of_hub<K: Keeper>(alloc: Global, keeper: &mut K, hub: u32) -> Result<Option<u32>, KeepErr>
    ensures told { Looks result (K.seen keeper.old) (K.seen keeper.new)
        (λ found t. found ≡ least_of t hub) }
    ensures walks { (t : Tables) → (K.seen keeper.old).tables t
        → Spent (hub_calls t) (K.seen keeper.old) (K.seen keeper.new) }
{
    let mut place = Key::Class(u32::MAX);
    'walk: loop {
        let Some((key, row)) = next_behind(alloc, keeper, Some(place))? else {
            return Ok(None);
        };
        if is_past(key) {
            return Ok(None);
        }
        let found = of_hub(alloc, keeper, hub, pool_at(&key, &row))?;
        if found.is_some() {
            return Ok(found);
        }
        place = key;
    }
}

// Whether the walk has passed by all pools.
fn is_past(key: Key) -> bool
    ensures passed { result ≡ nat_lt 6 (kind_of key) }
    ensures ranged { IsRanged key }
{
    is_past_pools(&key)
}

// The number of a pool, where the hub is its own.
#[tactic(auto, using(off_readers::proofs::ReadRules::counted_reads))]
fn of_hub<K: Keeper>(
    alloc: Global,
    keeper: &mut K,
    hub: u32,
    pool: Option<u32>,
) -> Result<Option<u32>, KeepErr>
    ensures told { Looks result (K.seen keeper.old) (K.seen keeper.new)
        (λ found t. found ≡ of_hub_in t hub pool) }
    ensures spent { Spent 1 (K.seen keeper.old) (K.seen keeper.new) }
{
    let Some(n) = pool else {
        return Ok(None);
    };
    let named = read_pool_hub(alloc, keeper, n)?;
    Ok(only_if(named == hub, n))
}

fn only_if(holds: bool, n: u32) -> Option<u32>
    ensures { result ≡ (if holds then Some n else None) }
{
    if holds { Some(n) } else { None }
}

// The number of an entry's pool. An impossible one is none.
fn pool_at(key: &Key, row: &Row) -> Option<u32>
    ensures { result ≡ option_map (λ pool. pool.0) (pool_of (key.now, row.now)) }
{
    let fits = is_possible(key, row);
    match key {
        Key::Pool(n) => match row {
            Row::Pool(_) => only_if(fits, *n),
            _ => None,
        },
        _ => None,
    }
}
