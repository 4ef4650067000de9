//! The address that a message is about, and its lease.

ghost use Rattle.std.specs.Prelude.{◌≡◌, true, false, Some, None, option_and_then, if◌then◌else◌};
ghost use Rattle.std.specs.Option.{option_or};
ghost use Rattle.off_defs.specs.State.{Tables};
ghost use Rattle.off_account_rules.specs.Rows.{has_address, lease_in};
ghost use Rattle.off_runs.specs.Held.{KeepsPools};
ghost use Rattle.off_runs.specs.Leases.{ground};
ghost use Rattle.off_base.specs.declared.addresses.Ip4.{Ip4};
ghost use Rattle.off_asking.specs.Asking.{is_discover, claimed};
ghost use Rattle.off_asking.specs.Choice.{provided};
ghost use Rattle.off_lease_rules.specs.Free.{is_free, least_free, choice, chosen_in};
ghost use Rattle.off_lease_rules.specs.Free.{pool_for};
ghost use Rattle.off_lease.specs.Stages.{IsBehind};
ghost use Rattle.off_outside.specs.KeeperCalls.{Looks, Spent};

use off_asking::{Asked, at_address, claimed, is_discover};
use off_base::Ip4;
use off_defs::{Lease, Pool};
use off_lease_rules::Case;
use off_outside::{KeepErr, Keeper};
use off_readers::{has_address, read_lease};
use off_runs::FreeRuns;
use std::alloc::Global;

/// The address that the message is about: for a DISCOVER it is chosen.
pub(crate) fn choose(runs: &FreeRuns, m: &Asked<'_>, case: &Case) -> Option<Ip4>
    ensures is { (t : Tables) → KeepsPools runs.now.pools (ground t)
        → (is_discover m.now ≡ true → case.now.pool ≡ pool_for t m.now)
        → result ≡ chosen_in t runs.now.at m.now case.now }
    ensures claimed { is_discover m.now ≡ false → result ≡ claimed m.now }
{
    if !is_discover(m) {
        return claimed(m);
    }
    match case.pool {
        Some(pool) => choice(runs, m.giaddr(), &pool, case.held, at_address(m.address())),
        None => None,
    }
}

// The client's own address, or else the one that it asks for, where that is free, or else the least
// that is free.
fn choice(
    runs: &FreeRuns,
    relay: Ip4,
    pool: &Pool,
    held: Option<Ip4>,
    asked: Option<Ip4>,
) -> Option<Ip4>
    ensures { (t : Tables) → IsBehind runs.now.pools relay pool.now t
        → result ≡ choice t runs.now.at pool.now held asked }
{
    match only_within(pool, held) {
        Some(own) => Some(own),
        None => choice_of_free(runs, relay, pool, asked),
    }
}

fn choice_of_free(runs: &FreeRuns, relay: Ip4, pool: &Pool, asked: Option<Ip4>) -> Option<Ip4>
    ensures { (t : Tables) → IsBehind runs.now.pools relay pool.now t
        → result ≡ option_or (provided (is_free t runs.now.at pool.now) asked)
        (least_free t runs.now.at pool.now) }
{
    match only_free(runs, pool, asked) {
        Some(address) => Some(address),
        None => runs.least_behind(relay),
    }
}

// The address, where it's one of the pool's.
fn only_within(pool: &Pool, address: Option<Ip4>) -> Option<Ip4>
    ensures { result ≡ provided (has_address pool.now) address }
{
    let Some(address) = address else { return None };
    if has_address(pool, address) {
        Some(address)
    } else {
        None
    }
}

// The address, where it's one of the pool's that is free.
fn only_free(runs: &FreeRuns, pool: &Pool, address: Option<Ip4>) -> Option<Ip4>
    ensures { (t : Tables) (relay : Ip4) → IsBehind runs.now.pools relay pool.now t
        → result ≡ provided (is_free t runs.now.at pool.now) address }
{
    let Some(address) = address else { return None };
    let is_free = is_free(runs, pool, address);
    if_so(is_free, address)
}

// Whether the pool has the address, and it's free: it has no lease, or one that has ended.
fn is_free(runs: &FreeRuns, pool: &Pool, address: Ip4) -> bool
    ensures { (t : Tables) (relay : Ip4) → IsBehind runs.now.pools relay pool.now t
        → result ≡ is_free t runs.now.at pool.now address }
{
    has_address(pool, address) && runs.is_free(address)
}

fn if_so(holds: bool, address: Ip4) -> Option<Ip4>
    ensures { result ≡ (if holds then Some address else None) }
{
    if holds { Some(address) } else { None }
}

/// The lease of the address that is offered. For other messages it doesn't matter, and is no call.
#[tactic(auto, using(crate::proofs::Chain::rows))]
pub(crate) fn lease_of<K: Keeper>(
    alloc: Global,
    keeper: &mut K,
    m: &Asked<'_>,
    chosen: Option<Ip4>,
) -> Result<Option<Lease>, KeepErr>
    ensures told { Looks result (K.seen keeper.old) (K.seen keeper.new)
        (λ lease t. is_discover m.now ≡ true → lease ≡ option_and_then (lease_in t) chosen) }
    ensures spent { Spent (if is_discover m.now then 1 else 0)
        (K.seen keeper.old) (K.seen keeper.new) }
{
    if !is_discover(m) {
        return Ok(None);
    }
    match chosen {
        Some(address) => read_lease(alloc, keeper, address),
        None => Ok(None),
    }
}
