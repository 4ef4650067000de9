//! The rows by which a query is answered, over the keeper alone: pools are looked for in the
//! tables.

ghost use Rattle.std.specs.Prelude.{◌≡◌, Some};
ghost use Rattle.off_asking.specs.Choice.{provided};
ghost use Rattle.off_query_rules.specs.Hubs.{lies_in_hub, wanted_pool, wanted_hub};
ghost use Rattle.off_query_rules.specs.Answers.{case_at, query_case};
ghost use Rattle.off_query.specs.Walked.{wanting};
ghost use Rattle.off_outside.specs.KeeperCalls.{Looks};

use crate::Query;
use crate::asking::question_of;
use crate::gathering::{asked_address, no_case, read_case};
use crate::pools::{wants, within};
use off_base::Ip4;
use off_defs::{Key, Row};
use off_outside::{KeepErr, Keeper};
use off_query_rules::{QueryCase, Question, Wanted};
use off_readers::{is_past_pools, is_possible, next_behind, read_pool_hub};
use std::alloc::Global;

/// The rows by which a query is answered. It walks over the pools.
#[tactic(auto, using(crate::proofs::Chain::cases))]
pub(crate) fn gather<K: Keeper>(
    alloc: Global,
    keeper: &mut K,
    q: &Query<'_>,
) -> Result<QueryCase, KeepErr>
    ensures { Looks result (K.seen keeper.old) (K.seen keeper.new)
        (λ case t. case ≡ query_case t q.now) }
{
    let hub = wanted_hub(alloc, keeper, Wanted::Relay(q.giaddr()))?;
    match hub {
        Some(hub) => gather_of(alloc, keeper, question_of(q), hub),
        None => Ok(no_case()),
    }
}

// The rows by which a query of a hub is answered.
#[tactic(auto, using(crate::proofs::Chain::rows))]
fn gather_of<K: Keeper>(
    alloc: Global,
    keeper: &mut K,
    question: Question,
    hub: u32,
) -> Result<QueryCase, KeepErr>
    ensures { Looks result (K.seen keeper.old) (K.seen keeper.new)
        (λ case t. case ≡ case_at t question (Some hub)) }
{
    let asked = asked_address(alloc, keeper, question)?;
    let address = only_within(alloc, keeper, hub, asked)?;
    read_case(alloc, keeper, hub, address)
}

// The address, where a pool of the hub has it.
#[tactic(auto, using(crate::proofs::Chain::rows))]
fn only_within<K: Keeper>(
    alloc: Global,
    keeper: &mut K,
    hub: u32,
    address: Option<Ip4>,
) -> Result<Option<Ip4>, KeepErr>
    ensures { Looks result (K.seen keeper.old) (K.seen keeper.new)
        (λ within t. within ≡ provided (lies_in_hub t hub) address) }
{
    let Some(address) = address else {
        return Ok(None);
    };
    let other = wanted_hub(alloc, keeper, Wanted::Address(address))?;
    Ok(within(hub, other, address))
}

// The hub of the first pool that is wanted.
#[tactic(auto, using(crate::proofs::Chain::rows))]
fn wanted_hub<K: Keeper>(
    alloc: Global,
    keeper: &mut K,
    wanted: Wanted,
) -> Result<Option<u32>, KeepErr>
    ensures { Looks result (K.seen keeper.old) (K.seen keeper.new)
        (λ hub t. hub ≡ wanted_hub t wanted) }
{
    match wanted_pool(alloc, keeper, wanted)? {
        Some(number) => Ok(Some(read_pool_hub(alloc, keeper, number)?)),
        None => Ok(None),
    }
}

// The number of the first pool that is wanted.
fn wanted_pool<K: Keeper>(
    alloc: Global,
    keeper: &mut K,
    wanted: Wanted,
) -> Result<Option<u32>, KeepErr>
    ensures { Looks result (K.seen keeper.old) (K.seen keeper.new)
        (λ number t. number ≡ wanted_pool t wanted) }
{
    let mut place = Key::Class(u32::MAX);
    'walk: loop {
        let Some((key, row)) = next_behind(alloc, keeper, Some(place))? else {
            return Ok(None);
        };
        if is_past_pools(&key) {
            return Ok(None);
        }
        let number = wanting(wanted, &key, &row);
        if number.is_some() {
            return Ok(number);
        }
        place = key;
    }
}

// The number of an entry's pool, where it's wanted. An impossible one is none.
fn wanting(wanted: Wanted, key: &Key, row: &Row) -> Option<u32>
    ensures { result ≡ wanting wanted (key.now, row.now) }
{
    match key {
        Key::Pool(number) => match row {
            Row::Pool(pool) => {
                if is_possible(key, row) && wants(wanted, pool) {
                    Some(*number)
                } else {
                    None
                }
            }
            _ => None,
        },
        _ => None,
    }
}
