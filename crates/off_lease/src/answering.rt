ghost use Rattle.std.specs.Prelude.{◌≡◌, MatchResult, Ok, None, true, if◌then◌else◌};
ghost use Rattle.off_asking.specs.Claims.{refused_by};
ghost use Rattle.off_lease_rules.specs.Rules.{early};
ghost use Rattle.off_runs.specs.Held.{StandsFor};
ghost use Rattle.off_runs.specs.Leases.{ground};
ghost use Rattle.off_asking.specs.Asking.{is_discover};
ghost use Rattle.off_lease_rules.specs.Steps.{lease_step, lease_step_in};
ghost use Rattle.off_lease_rules.specs.Free.{chosen_in, pool_for};
ghost use Rattle.off_lease.specs.Stages.{own_rules, HasGoodPool};
ghost use Rattle.off_lease.specs.Calls.{message_calls, row_calls};
ghost use Rattle.off_outside.specs.declared.keeper.KeepErr.TheVariants.{Memory};
ghost use Rattle.off_outside.specs.KeeperCalls.{Looks, Spent};

use crate::choosing::{choose, lease_of};
use crate::gathering::gather;
use crate::ruling::{own_refusal, row_refusal};
use crate::settling::{refuse, settle, silent};
use off_asking::Asked;
use off_base::{Moment, NoMemory};
use off_defs::Writes;
use off_lease_rules::{Case, LeaseStep};
use off_mic::HmacKey;
use off_outside::{KeepErr, Keeper};
use off_runs::FreeRuns;
use std::alloc::Global;

/// What a client's message does at a moment: what is to be written, what is to be sent for it, and
/// the word with which the log has it. It writes nothing.
///
/// Pools, their hubs and free addresses are those that are kept for the tables at the moment. The
/// tables needn't be good: an impossible row is taken as one that isn't there. `Failed` comes only
/// where the keeper counted a fault. The key of files' names becomes the secret of the hub, where a
/// file is named.
///
/// A message that is refused by what it says itself makes no call of the keeper, one that gives an
/// address back two at most, a REQUEST three, and a DISCOVER four, whatever the tables.
#[tactic(auto, using(crate::proofs::Chain::rows))]
pub fn answer<K: Keeper>(
    alloc: Global,
    keeper: &mut K,
    runs: &FreeRuns,
    key: &mut HmacKey,
    now: Moment,
    m: &Asked<'_>,
) -> Result<LeaseStep, KeepErr>
    ensures told { Looks result (K.seen keeper.old) (K.seen keeper.new)
        (λ step t. StandsFor runs.now (ground t) now.0 → step ≡ lease_step t now.0 m.now) }
    ensures spent { Spent (message_calls m.now) (K.seen keeper.old) (K.seen keeper.new) }
{
    match own_refusal(m) {
        Some(word) => Ok(silent(Writes::new(alloc), word)),
        None => answer_by_rows(alloc, keeper, runs, key, now, m),
    }
}

// What becomes of a message that isn't refused by what it says itself.
#[tactic(auto, using(crate::proofs::Chain::rows))]
fn answer_by_rows<K: Keeper>(
    alloc: Global,
    keeper: &mut K,
    runs: &FreeRuns,
    key: &mut HmacKey,
    now: Moment,
    m: &Asked<'_>,
) -> Result<LeaseStep, KeepErr>
    requires { refused_by (own_rules m.now) ≡ None }
    ensures told { Looks result (K.seen keeper.old) (K.seen keeper.new)
        (λ step t. StandsFor runs.now (ground t) now.0 → step ≡ lease_step t now.0 m.now) }
    ensures spent { Spent (row_calls m.now) (K.seen keeper.old) (K.seen keeper.new) }
{
    let case = gather(alloc, keeper, runs, m)?;
    match row_refusal(m, &case) {
        Some(word) => kept(refuse(alloc, m, &case.site, word)),
        None => answer_case(alloc, keeper, runs, key, now, m, &case),
    }
}

// What becomes of a message of which no early rule is broken.
#[tactic(auto, using(crate::proofs::Chain::rows))]
fn answer_case<K: Keeper>(
    alloc: Global,
    keeper: &mut K,
    runs: &FreeRuns,
    key: &mut HmacKey,
    now: Moment,
    m: &Asked<'_>,
    case: &Case,
) -> Result<LeaseStep, KeepErr>
    requires early { refused_by (early m.now case.now) ≡ None }
    requires fits { HasGoodPool case.now }
    ensures told { Looks result (K.seen keeper.old) (K.seen keeper.new)
        (λ step t. StandsFor runs.now (ground t) now.0
        → (is_discover m.now ≡ true → case.now.pool ≡ pool_for t m.now)
        → step ≡ lease_step_in t now.0 m.now case.now (chosen_in t now.0 m.now case.now)) }
    ensures spent { Spent (if is_discover m.now then 1 else 0)
        (K.seen keeper.old) (K.seen keeper.new) }
{
    let chosen = choose(runs, m, case);
    let lease = lease_of(alloc, keeper, m, chosen)?;
    kept(settle(alloc, key, now, m, case, chosen, lease))
}

fn kept(step: Result<LeaseStep, NoMemory>) -> Result<LeaseStep, KeepErr>
    ensures { MatchResult result (λ kept. step ≡ Ok kept) (λ err. err ≡ Memory) }
{
    Ok(step?)
}
