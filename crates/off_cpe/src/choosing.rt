//! The address that a message is about, and its lease.

ghost use Rattle.std.specs.Prelude.{◌≡◌, false, Some, None, if◌then◌else◌};
ghost use Rattle.std.specs.Option.{option_or};
ghost use Rattle.off_base.specs.declared.addresses.Ip4.{Ip4};
ghost use Rattle.off_defs.specs.State.{Tables};
ghost use Rattle.off_account_rules.specs.Rows.{has_address, device_pools};
ghost use Rattle.off_asking.specs.Asking.{is_discover, claimed};
ghost use Rattle.off_asking.specs.Choice.{least_of, provided, choice_by, pool_among};
ghost use Rattle.off_cpe_rules.specs.Behind.{is_free, chosen_in};
ghost use Rattle.off_runs.specs.Held.{KeepsPools};
ghost use Rattle.off_device_runs.specs.Ground.{device_ground};
ghost use Rattle.off_cpe.specs.Stages.{IsBehind, own_lease};

use off_asking::{Asked, at_address, claimed, is_discover};
use off_base::Ip4;
use off_cpe_rules::DeviceCase;
use off_defs::{DeviceLease, Pool};
use off_device_runs::DeviceRuns;
use off_readers::has_address;

/// The address that the message is about: for a DISCOVER it is chosen.
pub(crate) fn choose(pools: &DeviceRuns, m: &Asked<'_>, case: &DeviceCase) -> Option<Ip4>
    ensures is { (t : Tables) → KeepsPools pools.now.pools (device_ground t)
        → case.now.pool ≡ pool_among (device_pools t) m.now
        → result ≡ chosen_in t pools.now.at m.now case.now }
    ensures claimed { is_discover m.now ≡ false → result ≡ claimed m.now }
{
    if !is_discover(m) {
        return claimed(m);
    }
    match case.pool {
        Some(pool) => choice(pools, m.giaddr(), &pool, case.own, at_address(m.address())),
        None => None,
    }
}

// The device's own address, or else the one that it asks for, where that is free, or else the least
// that is free.
fn choice(
    pools: &DeviceRuns,
    relay: Ip4,
    pool: &Pool,
    own: Option<Ip4>,
    asked: Option<Ip4>,
) -> Option<Ip4>
    ensures { (t : Tables) → IsBehind pools.now.pools relay pool.now t
        → result ≡ choice_by (is_free t pools.now.at pool.now) pool.now own asked }
{
    match only_within(pool, own) {
        Some(own) => Some(own),
        None => choice_of_free(pools, relay, pool, asked),
    }
}

fn choice_of_free(pools: &DeviceRuns, relay: Ip4, pool: &Pool, asked: Option<Ip4>) -> Option<Ip4>
    ensures { (t : Tables) → IsBehind pools.now.pools relay pool.now t
        → result ≡ option_or (provided (is_free t pools.now.at pool.now) asked)
        (least_of (is_free t pools.now.at pool.now) pool.now) }
{
    match only_free(pools, pool, asked) {
        Some(address) => Some(address),
        None => pools.least_behind(relay),
    }
}

// The address, where it's one of the pool's.
fn only_within(pool: &Pool, address: Option<Ip4>) -> Option<Ip4>
    ensures { result ≡ provided (has_address pool.now) address }
{
    let Some(address) = address else { return None };
    if has_address(pool, address) {
        Some(address)
    } else {
        None
    }
}

// The address, where it's one of the pool's that is free.
fn only_free(pools: &DeviceRuns, pool: &Pool, address: Option<Ip4>) -> Option<Ip4>
    ensures { (t : Tables) (relay : Ip4) → IsBehind pools.now.pools relay pool.now t
        → result ≡ provided (is_free t pools.now.at pool.now) address }
{
    let Some(address) = address else { return None };
    let is_free = is_free(pools, pool, address);
    if_so(is_free, address)
}

// Whether the pool has the address, and it's free: it has no lease, or one that has ended.
fn is_free(pools: &DeviceRuns, pool: &Pool, address: Ip4) -> bool
    ensures { (t : Tables) (relay : Ip4) → IsBehind pools.now.pools relay pool.now t
        → result ≡ is_free t pools.now.at pool.now address }
{
    has_address(pool, address) && pools.is_free(address)
}

fn if_so(holds: bool, address: Ip4) -> Option<Ip4>
    ensures { result ≡ (if holds then Some address else None) }
{
    if holds { Some(address) } else { None }
}

/// The lease of the address that is chosen, where it's the device's own. Any other one that is
/// chosen for an offer is free, so that its lease doesn't matter.
pub(crate) fn own_lease(own: Option<(Ip4, DeviceLease)>, chosen: Option<Ip4>) -> Option<DeviceLease>
    ensures { result ≡ own_lease own chosen }
{
    let (held, lease) = own?;
    let address = chosen?;
    if held.0 == address.0 {
        Some(lease)
    } else {
        None
    }
}
