ghost use Rattle.std.specs.Prelude.{◌≡◌, IfOk, MatchResult, Ok};
ghost use Rattle.off_runs.specs.Held.{KeepsPools};
ghost use Rattle.off_runs.specs.Leases.{ground};
ghost use Rattle.off_query_rules.specs.Answers.{query_step_for, query_step};
ghost use Rattle.off_query.specs.Calls.{query_calls};
ghost use Rattle.off_outside.specs.declared.keeper.KeepErr.TheVariants.{Memory};
ghost use Rattle.off_outside.specs.KeeperCalls.{Looks, Spent};

use crate::asking::question_of;
use crate::judging::word_of;
use crate::replying::reply_by_word;
use crate::{Query, keeping, walking};
use off_base::{Moment, NoMemory};
use off_outside::{KeepErr, Keeper};
use off_query_rules::{QueryCase, QueryStep};
use off_runs::FreeRuns;
use std::alloc::Global;

/// What becomes of a query at a moment: what is sent for it, and the word with which the log has
/// it. It writes nothing, and walks over the pools.
///
/// The tables needn't be good: an impossible row is taken as one that isn't there. `Failed` comes
/// only where the keeper counted a fault.
pub fn reply<K: Keeper>(
    alloc: Global,
    keeper: &mut K,
    now: Moment,
    q: &Query<'_>,
) -> Result<QueryStep, KeepErr>
    ensures { Looks result (K.seen keeper.old) (K.seen keeper.new)
        (λ step t. step ≡ query_step t now.0 q.now) }
{
    let case = walking::gather(alloc, keeper, q)?;
    kept(settle(alloc, now, q, &case))
}

/// The same over what the office keeps of its pools. It makes no walk: a query by hardware address
/// makes three calls of the keeper at most, and any other two, whatever the tables.
pub fn reply_by<K: Keeper>(
    alloc: Global,
    keeper: &mut K,
    runs: &FreeRuns,
    now: Moment,
    q: &Query<'_>,
) -> Result<QueryStep, KeepErr>
    ensures told { Looks result (K.seen keeper.old) (K.seen keeper.new)
        (λ step t. KeepsPools runs.now.pools (ground t) → step ≡ query_step t now.0 q.now) }
    ensures spent { Spent (query_calls q.now) (K.seen keeper.old) (K.seen keeper.new) }
{
    let case = keeping::gather(alloc, keeper, runs, q)?;
    kept(settle(alloc, now, q, &case))
}

// What becomes of a query, by its rows.
#[tactic(auto, unfolding(off_query_rules::specs::Answers::query_step_for))]
fn settle(
    alloc: Global,
    now: Moment,
    q: &Query<'_>,
    case: &QueryCase,
) -> Result<QueryStep, NoMemory>
    ensures { IfOk result (λ step. step ≡ query_step_for now.0 q.now case.now) }
{
    let word = word_of(now, question_of(q), case);
    let reply = match &case.site {
        Some(site) => reply_by_word(alloc, now, q, case, site, word)?,
        None => None,
    };
    Ok(QueryStep { reply, word })
}

fn kept(step: Result<QueryStep, NoMemory>) -> Result<QueryStep, KeepErr>
    ensures { MatchResult result (λ kept. step ≡ Ok kept) (λ err. err ≡ Memory) }
{
    Ok(step?)
}
