//! The rows of a query that aren't pools.

ghost use Rattle.std.specs.Prelude.{◌≡◌, None, option_and_then};
ghost use Rattle.off_account_rules.specs.Rows.{hub_in, lease_in};
ghost use Rattle.off_query_rules.specs.Answers.{asked_address, case_with};
ghost use Rattle.off_query.specs.Calls.{asked_calls};
ghost use Rattle.off_outside.specs.KeeperCalls.{Looks, Spent};

use off_base::Ip4;
use off_defs::Lease;
use off_outside::{KeepErr, Keeper};
use off_query_rules::{QueryCase, Question};
use off_readers::{read_held, read_hub, read_lease};
use std::alloc::Global;

/// What is there for a relay that no pool has.
pub(crate) fn no_case() -> QueryCase
    ensures { result ≡ record { site = None; address = None; lease = None } }
{
    QueryCase {
        site: None,
        address: None,
        lease: None,
    }
}

/// The address that is asked for: that of the query, or the one that the client holds.
#[tactic(auto, using(crate::proofs::Chain::rows))]
pub(crate) fn asked_address<K: Keeper>(
    alloc: Global,
    keeper: &mut K,
    question: Question,
) -> Result<Option<Ip4>, KeepErr>
    ensures told { Looks result (K.seen keeper.old) (K.seen keeper.new)
        (λ address t. address ≡ asked_address t question) }
    ensures spent { Spent (asked_calls question) (K.seen keeper.old) (K.seen keeper.new) }
{
    match question {
        Question::ByAddress(address) => Ok(Some(address)),
        Question::ByMac(mac) => read_held(alloc, keeper, mac),
        Question::Formless => Ok(None),
    }
}

/// The row of the hub, and the lease of the address that is asked for.
#[tactic(auto, using(crate::proofs::Chain::rows))]
pub(crate) fn read_case<K: Keeper>(
    alloc: Global,
    keeper: &mut K,
    hub: u32,
    address: Option<Ip4>,
) -> Result<QueryCase, KeepErr>
    ensures told { Looks result (K.seen keeper.old) (K.seen keeper.new)
        (λ case t. case ≡ case_with t (hub_in t hub) address) }
    ensures spent { Spent 2 (K.seen keeper.old) (K.seen keeper.new) }
{
    let site = read_hub(alloc, keeper, hub)?;
    let lease = lease_of(alloc, keeper, address)?;
    Ok(QueryCase {
        site,
        address,
        lease,
    })
}

#[tactic(auto, using(crate::proofs::Chain::rows))]
fn lease_of<K: Keeper>(
    alloc: Global,
    keeper: &mut K,
    address: Option<Ip4>,
) -> Result<Option<Lease>, KeepErr>
    ensures told { Looks result (K.seen keeper.old) (K.seen keeper.new)
        (λ lease t. lease ≡ option_and_then (lease_in t) address) }
    ensures spent { Spent 1 (K.seen keeper.old) (K.seen keeper.new) }
{
    match address {
        Some(address) => read_lease(alloc, keeper, address),
        None => Ok(None),
    }
}
