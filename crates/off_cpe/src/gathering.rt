//! The rows by which a device's message is judged.

ghost use Rattle.std.specs.Prelude.{◌≡◌, IfOk, IfSome, IsTrue, option_map, option_and_then};
ghost use Rattle.std.specs.Prelude.{is_some, if◌then◌else◌};
ghost use Rattle.off_defs.specs.State.{Tables};
ghost use Rattle.off_account_rules.specs.Rows.{passes, pool_fits, devices, device_pools, site_of};
ghost use Rattle.off_account_rules.specs.Rows.{modem_in, subscriber_in, lease_in};
ghost use Rattle.off_asking.specs.Asking.{client};
ghost use Rattle.off_asking.specs.Choice.{pool_among};
ghost use Rattle.off_behind.specs.Neighbours.{AreNeighbours};
ghost use Rattle.off_cpe_rules.specs.Behind.{device_case};
ghost use Rattle.off_account_rules.specs.Good.{is_bound, is_live_bound};
ghost use Rattle.off_runs.specs.Held.{KeepsPools};
ghost use Rattle.off_runs.specs.Leases.{ground};
ghost use Rattle.off_device_runs.specs.Ground.{device_ground};
ghost use Rattle.off_cpe.specs.Calls.{gather_calls};
ghost use Rattle.off_cpe.specs.Stages.{IsKnown, IsRead, HasGoodPool};
ghost use Rattle.off_outside.specs.KeeperCalls.{Looks, Spent};

use crate::known::Known;
use crate::modems::FoundModem;
use off_asking::{Asked, is_renewal};
use off_base::{Ip4, Mac, Moment};
use off_behind::Neighbours;
use off_cpe_rules::DeviceCase;
use off_defs::{DeviceLease, Hold, Lease, Pool, Site, Subscriber};
use off_device_runs::DeviceRuns;
use off_outside::{KeepErr, Keeper};
use off_readers::{read_held, read_lease, read_modem, read_site, read_subscriber};
use off_runs::FreeRuns;
use std::alloc::Global;

/// The rows by which the message is judged: four calls of the keeper at most, and one more where
/// the modem's row isn't read yet. The pool and the modem's hub are what is known of them, and so
/// are the leases behind the modem.
#[tactic(auto, using(crate::proofs::Chain::rows))]
pub(crate) fn gather<K: Keeper>(
    alloc: Global,
    keeper: &mut K,
    known: &Known<'_>,
    seen: &Neighbours,
    now: Moment,
    m: &Asked<'_>,
    modem: FoundModem,
) -> Result<DeviceCase, KeepErr>
    ensures told { Looks result (K.seen keeper.old) (K.seen keeper.new)
        (λ case t. IsKnown known.now.devices.now known.now.pools.now known.now.modems.now now.0 t
        → AreNeighbours seen.now now.0 modem.mac (client m.now) (devices t) → IsRead modem t
        → case ≡ device_case t now.0 m.now modem.mac) }
    ensures fits { IfOk result HasGoodPool }
    ensures own { IfOk result (λ case. case.own ≡ option_map (λ lease. lease.0) seen.now.own) }
    ensures few { Spent (gather_calls modem) (K.seen keeper.old) (K.seen keeper.new) }
{
    let subscriber = subscriber_of(alloc, keeper, modem)?;
    let held = read_held(alloc, keeper, modem.mac)?;
    let is_online = is_online(alloc, keeper, now, held)?;
    let site = site_of(alloc, keeper, known.modems, held)?;
    Ok(DeviceCase {
        pool: pool_for(known.pools, m),
        subscriber,
        is_online,
        site,
        own: address_of(seen.own),
        others: seen.others,
    })
}

fn address_of(lease: Option<(Ip4, DeviceLease)>) -> Option<Ip4>
    ensures { result ≡ option_map (λ lease. lease.0) lease }
{
    let (address, _lease) = lease?;
    Some(address)
}

// The pool from which the device is served: that of its relay, or else that of the address which it
// renews.
fn pool_for(pools: &DeviceRuns, m: &Asked<'_>) -> Option<Pool>
    ensures is { (t : Tables) → KeepsPools pools.now.pools (device_ground t)
        → result ≡ pool_among (device_pools t) m.now }
    ensures fits { IfSome result (λ pool. IsTrue (pool_fits pool)) }
{
    let relay = m.giaddr();
    if relay.0 != 0 {
        return pools.pool_behind(relay);
    }
    if is_renewal(m) {
        return pools.pool_around(m.ciaddr());
    }
    None
}

// The modem's subscriber.
#[tactic(auto, using(crate::proofs::Chain::rows))]
fn subscriber_of<K: Keeper>(
    alloc: Global,
    keeper: &mut K,
    modem: FoundModem,
) -> Result<Option<Subscriber>, KeepErr>
    ensures told { Looks result (K.seen keeper.old) (K.seen keeper.new)
        (λ subscriber t. IsRead modem t → subscriber
        ≡ option_and_then (λ row. subscriber_in t row.subscriber) (modem_in t modem.mac)) }
    ensures few { Spent (if is_some modem.subscriber then 1 else 2)
        (K.seen keeper.old) (K.seen keeper.new) }
{
    match modem.subscriber {
        Some(number) => read_subscriber(alloc, keeper, number),
        None => read_both(alloc, keeper, modem.mac),
    }
}

// The subscriber of a modem whose row isn't read yet.
#[tactic(auto, using(crate::proofs::Chain::rows))]
fn read_both<K: Keeper>(
    alloc: Global,
    keeper: &mut K,
    modem: Mac,
) -> Result<Option<Subscriber>, KeepErr>
    ensures told { Looks result (K.seen keeper.old) (K.seen keeper.new)
        (λ subscriber t. subscriber
        ≡ option_and_then (λ row. subscriber_in t row.subscriber) (modem_in t modem)) }
    ensures few { Spent 2 (K.seen keeper.old) (K.seen keeper.new) }
{
    let row = read_modem(alloc, keeper, modem)?;
    match row {
        Some(row) => read_subscriber(alloc, keeper, row.subscriber),
        None => Ok(None),
    }
}

// Whether the modem is bound to the address that it holds.
#[tactic(auto, using(crate::proofs::Chain::rows))]
fn is_online<K: Keeper>(
    alloc: Global,
    keeper: &mut K,
    now: Moment,
    held: Option<Ip4>,
) -> Result<bool, KeepErr>
    ensures told { Looks result (K.seen keeper.old) (K.seen keeper.new)
        (λ online t. online ≡ passes (is_live_bound now.0) (option_and_then (lease_in t) held)) }
    ensures few { Spent 1 (K.seen keeper.old) (K.seen keeper.new) }
{
    let Some(address) = held else {
        return Ok(false);
    };
    let lease = read_lease(alloc, keeper, address)?;
    Ok(is_live_bound(now, lease))
}

fn is_live_bound(now: Moment, lease: Option<Lease>) -> bool
    ensures { result ≡ passes (is_live_bound now.0) lease }
{
    match lease {
        Some(lease) => is_bound(lease.hold) && now.0 < lease.expiry.0,
        None => false,
    }
}

fn is_bound(hold: Hold) -> bool
    ensures { result ≡ is_bound hold }
{
    matches!(hold, Hold::Bound(_))
}

// The site of the hub of the address that the modem holds.
#[tactic(auto, using(crate::proofs::Chain::rows))]
fn site_of<K: Keeper>(
    alloc: Global,
    keeper: &mut K,
    modems: &FreeRuns,
    held: Option<Ip4>,
) -> Result<Option<Site>, KeepErr>
    ensures told { Looks result (K.seen keeper.old) (K.seen keeper.new)
        (λ site t. KeepsPools modems.now.pools (ground t)
        → site ≡ option_and_then (site_of t) held) }
    ensures few { Spent 1 (K.seen keeper.old) (K.seen keeper.new) }
{
    let Some(address) = held else {
        return Ok(None);
    };
    let hub = modems.hub_around(address);
    read_site(alloc, keeper, hub)
}
