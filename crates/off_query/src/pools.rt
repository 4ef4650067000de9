//! Whether a pool is the one that is wanted, and an address one of a hub's.

ghost use Rattle.std.specs.Prelude.{◌≡◌, ◌==◌, Some, None, if◌then◌else◌};
ghost use Rattle.off_account_rules.specs.Rows.{passes};
ghost use Rattle.off_query_rules.specs.Hubs.{wants};

use off_base::Ip4;
use off_defs::Pool;
use off_query_rules::Wanted;
use off_readers::has_address;

/// Whether it's the pool that is wanted.
pub(crate) fn wants(wanted: Wanted, pool: &Pool) -> bool
    ensures { result ≡ wants wanted pool.now }
{
    match wanted {
        Wanted::Relay(relay) => pool.relay.0 == relay.0,
        Wanted::Address(address) => has_address(pool, address),
    }
}

/// The address, where the pool that has it is one of the hub's.
pub(crate) fn within(hub: u32, other: Option<u32>, address: Ip4) -> Option<Ip4>
    ensures { result ≡ (if passes (λ other. other == hub) other then Some address else None) }
{
    if is_hub(other, hub) {
        Some(address)
    } else {
        None
    }
}

fn is_hub(other: Option<u32>, hub: u32) -> bool
    ensures { result ≡ passes (λ other. other == hub) other }
{
    match other {
        Some(other) => other == hub,
        None => false,
    }
}
