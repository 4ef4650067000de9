//! The pool from which a client is served, and the hub by whose site it is judged.

ghost use Rattle.std.specs.Prelude.{◌≡◌, option_map, IfSome, IsTrue};
ghost use Rattle.off_defs.specs.State.{Tables};
ghost use Rattle.off_account_rules.specs.Rows.{pool_hub_in, pool_fits};
ghost use Rattle.off_runs.specs.Held.{KeepsPools};
ghost use Rattle.off_runs.specs.Leases.{ground};
ghost use Rattle.off_lease_rules.specs.Free.{numbered_pool_for, pool_for, hub_for};

use off_asking::{Asked, asks, claimed, is_renewal};
use off_defs::Pool;
use off_runs::FreeRuns;

/// The pool from which the client is served: that of its relay, or else that of the address which
/// it renews.
pub(crate) fn pool_for(runs: &FreeRuns, m: &Asked<'_>) -> Option<Pool>
    ensures is { (t : Tables) → KeepsPools runs.now.pools (ground t)
        → result ≡ pool_for t m.now }
    ensures fits { IfSome result (λ pool. IsTrue (pool_fits pool)) }
{
    let relay = m.giaddr();
    if relay.0 != 0 {
        return runs.pool_behind(relay);
    }
    if is_renewal(m) {
        return runs.pool_around(m.ciaddr());
    }
    None
}

/// The hub of the pool from which the client is served; for an address that is given back, that of
/// the pool which has the address.
pub(crate) fn hub_for(runs: &FreeRuns, m: &Asked<'_>) -> Option<u32>
    ensures { (t : Tables) → KeepsPools runs.now.pools (ground t) → result ≡ hub_for t m.now }
{
    if asks(m) {
        return serving_hub(runs, m);
    }
    match claimed(m) {
        Some(address) => runs.hub_around(address),
        None => None,
    }
}

fn serving_hub(runs: &FreeRuns, m: &Asked<'_>) -> Option<u32>
    ensures { (t : Tables) → KeepsPools runs.now.pools (ground t)
        → result ≡ option_map (λ e. pool_hub_in t e.0) (numbered_pool_for t m.now) }
{
    let relay = m.giaddr();
    if relay.0 != 0 {
        return runs.hub_behind(relay);
    }
    if is_renewal(m) {
        return runs.hub_around(m.ciaddr());
    }
    None
}
