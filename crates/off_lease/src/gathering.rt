ghost use Rattle.std.specs.Prelude.{◌≡◌, IfOk, None, if◌then◌else◌};
ghost use Rattle.off_account_rules.specs.Rows.{held_in};
ghost use Rattle.off_runs.specs.Held.{KeepsPools};
ghost use Rattle.off_runs.specs.Leases.{ground};
ghost use Rattle.off_asking.specs.Asking.{asks, client};
ghost use Rattle.off_lease_rules.specs.Free.{case_of, site_for};
ghost use Rattle.off_lease.specs.Stages.{seen_case, HasGoodPool};
ghost use Rattle.off_outside.specs.KeeperCalls.{Looks, Spent};

use crate::pools::{hub_for, pool_for};
use off_asking::{Asked, asks, client};
use off_lease_rules::Case;
use off_outside::{KeepErr, Keeper};
use off_readers::{read_held, read_modem, read_site};
use off_runs::FreeRuns;
use std::alloc::Global;

/// The rows by which the message is judged. The pool and the hub are what the office keeps of its
/// pools. Where the client asks for an address it's three calls of the keeper, and else two.
#[tactic(auto, using(crate::proofs::Chain::rows))]
pub(crate) fn gather<K: Keeper>(
    alloc: Global,
    keeper: &mut K,
    runs: &FreeRuns,
    m: &Asked<'_>,
) -> Result<Case, KeepErr>
    ensures told { Looks result (K.seen keeper.old) (K.seen keeper.new)
        (λ case t. KeepsPools runs.now.pools (ground t) → case ≡ seen_case t m.now) }
    ensures fits { IfOk result HasGoodPool }
    ensures spent { Spent (if asks m.now then 3 else 2) (K.seen keeper.old) (K.seen keeper.new) }
{
    if asks(m) {
        gather_all(alloc, keeper, runs, m)
    } else {
        gather_held(alloc, keeper, runs, m)
    }
}

// The rows by which a client is judged that asks for an address.
#[tactic(auto, using(crate::proofs::Chain::rows), unfolding(off_lease_rules::specs::Free::case_of))]
fn gather_all<K: Keeper>(
    alloc: Global,
    keeper: &mut K,
    runs: &FreeRuns,
    m: &Asked<'_>,
) -> Result<Case, KeepErr>
    ensures told { Looks result (K.seen keeper.old) (K.seen keeper.new)
        (λ case t. KeepsPools runs.now.pools (ground t) → case ≡ case_of t m.now) }
    ensures fits { IfOk result HasGoodPool }
    ensures spent { Spent 3 (K.seen keeper.old) (K.seen keeper.new) }
{
    let pool = pool_for(runs, m);
    let site = read_site(alloc, keeper, hub_for(runs, m))?;
    let held = read_held(alloc, keeper, client(m))?;
    let modem = read_modem(alloc, keeper, client(m))?;
    Ok(Case {
        site,
        pool,
        modem,
        held,
    })
}

// Those by which a client is judged that gives one back.
#[tactic(auto, using(crate::proofs::Chain::rows))]
fn gather_held<K: Keeper>(
    alloc: Global,
    keeper: &mut K,
    runs: &FreeRuns,
    m: &Asked<'_>,
) -> Result<Case, KeepErr>
    ensures told { Looks result (K.seen keeper.old) (K.seen keeper.new)
        (λ case t. KeepsPools runs.now.pools (ground t) → case ≡ record {
          site = site_for t m.now;
          pool = None;
          modem = None;
          held = held_in t (client m.now);
        }) }
    ensures fits { IfOk result HasGoodPool }
    ensures spent { Spent 2 (K.seen keeper.old) (K.seen keeper.new) }
{
    let site = read_site(alloc, keeper, hub_for(runs, m))?;
    let held = read_held(alloc, keeper, client(m))?;
    Ok(Case {
        site,
        pool: None,
        modem: None,
        held,
    })
}
