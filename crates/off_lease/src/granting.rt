//! What is granted once the rules are passed: nothing that they looked for is missing any more.

ghost use Rattle.std.specs.Prelude.{◌≡◌, IsSome, Some};

use off_base::Ip4;
use off_defs::{Pool, Site};
use off_lease_rules::Case;

/// What a client gets that asks for an address.
#[derive(Drop)]
pub(crate) struct Granted<'c> {
    pub(crate) site: &'c Site,
    pub(crate) pool: Pool,
    pub(crate) address: Ip4,
}

/// What is granted of a case, where all of it is there.
pub(crate) fn grant(case: &Case, chosen: Option<Ip4>) -> Granted<'_>
    requires site { IsSome case.now.site }
    requires pool { IsSome case.now.pool }
    requires address { IsSome chosen }
    ensures site { case.now.site ≡ Some result.site.now }
    ensures pool { case.now.pool ≡ Some result.pool }
    ensures address { chosen ≡ Some result.address }
{
    let Some(site) = &case.site else {
        unreachable!()
    };
    let Some(pool) = case.pool else {
        unreachable!()
    };
    Granted {
        site,
        pool,
        address: given_back(chosen),
    }
}

/// The address that is given back, where there is one.
pub(crate) fn given_back(chosen: Option<Ip4>) -> Ip4
    requires { IsSome chosen }
    ensures { chosen ≡ Some result }
{
    let Some(address) = chosen else {
        unreachable!()
    };
    address
}
