//! What is sent for a device's message that grants an address.

ghost use Rattle.std.specs.Prelude.{◌≡◌, ◌⊎◌, IfOk, IfSome, IsTrue, option_map};
ghost use Rattle.std.specs.Prelude.{option_and_then};
ghost use Rattle.off_account_rules.specs.Rows.{pool_fits};
ghost use Rattle.off_asking.specs.Sending.{offer_named, reply_to};
ghost use Rattle.off_cpe_rules.specs.Steps.{no_name, reply_for};
ghost use Rattle.off_cpe.specs.Stages.{HasGoodPool};

use off_asking::{Asked, offer_named, reply_to};
use off_base::{Ip4, NoMemory};
use off_cpe_rules::DeviceCase;
use off_defs::{Pool, Sent, Site};
use std::alloc::Global;

// A device has no boot file.
const NO_NAME: [u8; 32] = [0; 32];

/// An OFFER (2) or an ACK (5), where the site, the pool and the address are there.
pub(crate) fn reply_for(
    alloc: Global,
    kind: u8,
    m: &Asked<'_>,
    case: &DeviceCase,
    chosen: Option<Ip4>,
) -> Result<Option<Sent>, NoMemory>
    requires kind { (kind ≡ 2) ⊎ (kind ≡ 5) }
    requires fits { HasGoodPool case.now }
    ensures { IfOk result (λ reply. reply ≡ reply_for kind m.now case.now chosen) }
{
    match &case.site {
        Some(site) => reply_by(alloc, kind, m, site, case.pool, chosen),
        None => Ok(None),
    }
}

fn reply_by(
    alloc: Global,
    kind: u8,
    m: &Asked<'_>,
    site: &Site,
    pool: Option<Pool>,
    chosen: Option<Ip4>,
) -> Result<Option<Sent>, NoMemory>
    requires kind { (kind ≡ 2) ⊎ (kind ≡ 5) }
    requires fits { IfSome pool (λ pool. IsTrue (pool_fits pool)) }
    ensures { IfOk result (λ reply. reply ≡ option_and_then
        (λ pool. option_map
        (λ address. reply_to m.now (offer_named kind site.now pool no_name address)) chosen) pool) }
{
    let Some(pool) = pool else {
        return Ok(None);
    };
    let Some(address) = chosen else {
        return Ok(None);
    };
    let offer = offer_named(kind, site, pool, NO_NAME, address);
    Ok(Some(reply_to(alloc, m, &offer)?))
}
