ghost use Rattle.std.specs.Prelude.{◌≡◌};
ghost use Rattle.off_account_rules.specs.Rows.{has_address, overlaps};
ghost use Rattle.off_account_rules.specs.Good.{owner_of};

use off_base::{Ip4, Mac};
use off_defs::{Hold, Pool};

/// Whether the address is one of the pool's.
pub fn has_address(pool: &Pool, address: Ip4) -> bool
    ensures { result ≡ has_address pool.now address }
{
    pool.first.0 <= address.0 && address.0 <= pool.last.0
}

/// Whether two pools have an address in common.
pub fn overlaps(pool: &Pool, other: &Pool) -> bool
    ensures { result ≡ overlaps pool.now other.now }
{
    pool.first.0.max(other.first.0) <= pool.last.0.min(other.last.0)
}

/// The modem that has an address, or `None` where it's declined.
pub fn owner_of(hold: Hold) -> Option<Mac>
    ensures { result ≡ owner_of hold }
{
    match hold {
        Hold::Offered(mac) => Some(mac),
        Hold::Bound(mac) => Some(mac),
        Hold::Declined => None,
    }
}
