//! The rows by which a query is answered, with pools from what is kept of them.

ghost use Rattle.std.specs.Prelude.{◌≡◌, Some};
ghost use Rattle.off_defs.specs.State.{Tables};
ghost use Rattle.off_runs.specs.Held.{KeepsPools};
ghost use Rattle.off_runs.specs.Leases.{ground};
ghost use Rattle.off_asking.specs.Choice.{provided};
ghost use Rattle.off_query_rules.specs.Asked.{question_of};
ghost use Rattle.off_query_rules.specs.Hubs.{lies_in_hub, wanted_hub};
ghost use Rattle.off_query_rules.specs.Answers.{case_at, query_case};
ghost use Rattle.off_query_rules.specs.declared.wanted.Wanted.TheVariants.{Relay};
ghost use Rattle.off_query.specs.Calls.{question_calls};
ghost use Rattle.off_outside.specs.KeeperCalls.{Looks, Spent};

use crate::Query;
use crate::asking::question_of;
use crate::gathering::{asked_address, no_case, read_case};
use crate::pools::within;
use off_base::Ip4;
use off_outside::{KeepErr, Keeper};
use off_query_rules::{QueryCase, Question};
use off_runs::FreeRuns;
use std::alloc::Global;

/// The rows by which a query is answered.
#[tactic(auto, using(crate::proofs::Chain::rows))]
pub(crate) fn gather<K: Keeper>(
    alloc: Global,
    keeper: &mut K,
    runs: &FreeRuns,
    q: &Query<'_>,
) -> Result<QueryCase, KeepErr>
    ensures told { Looks result (K.seen keeper.old) (K.seen keeper.new)
        (λ case t. KeepsPools runs.now.pools (ground t) → case ≡ query_case t q.now) }
    ensures spent { Spent (question_calls (question_of q.now))
        (K.seen keeper.old) (K.seen keeper.new) }
{
    match hub_behind(runs, q.giaddr()) {
        Some(hub) => gather_of(alloc, keeper, runs, question_of(q), hub),
        None => Ok(no_case()),
    }
}

// The rows by which a query of a hub is answered.
#[tactic(auto, using(crate::proofs::Chain::rows))]
fn gather_of<K: Keeper>(
    alloc: Global,
    keeper: &mut K,
    runs: &FreeRuns,
    question: Question,
    hub: u32,
) -> Result<QueryCase, KeepErr>
    ensures told { Looks result (K.seen keeper.old) (K.seen keeper.new)
        (λ case t. KeepsPools runs.now.pools (ground t) → case ≡ case_at t question (Some hub)) }
    ensures spent { Spent (question_calls question) (K.seen keeper.old) (K.seen keeper.new) }
{
    let asked = asked_address(alloc, keeper, question)?;
    let address = only_within(runs, hub, asked);
    read_case(alloc, keeper, hub, address)
}

// The address, where a pool of the hub has it.
fn only_within(runs: &FreeRuns, hub: u32, address: Option<Ip4>) -> Option<Ip4>
    ensures { (t : Tables) → KeepsPools runs.now.pools (ground t)
        → result ≡ provided (lies_in_hub t hub) address }
{
    let Some(address) = address else {
        return None;
    };
    within(hub, runs.hub_around(address), address)
}

// The hub of the pool behind a relay.
fn hub_behind(runs: &FreeRuns, relay: Ip4) -> Option<u32>
    ensures { (t : Tables) → KeepsPools runs.now.pools (ground t)
        → result ≡ wanted_hub t (Relay relay) }
{
    runs.hub_behind(relay)
}
