//! What is sent for a message that grants an address.

ghost use Rattle.std.specs.Prelude.{◌≡◌, ◌⊎◌, IfOk, IsTrue};
ghost use Rattle.off_account_rules.specs.Rows.{pool_fits};
ghost use Rattle.off_lease_rules.specs.Steps.{offer_of, offer_to};

use crate::granting::Granted;
use off_asking::{Asked, client, offer_named, reply_to};
use off_base::NoMemory;
use off_defs::Sent;
use off_dhcp::Offer;
use off_files::file_name;
use off_mic::HmacKey;
use std::alloc::Global;

/// An OFFER (2) or an ACK (5).
pub(crate) fn offer_to(
    alloc: Global,
    key: &mut HmacKey,
    kind: u8,
    m: &Asked<'_>,
    granted: &Granted<'_>,
) -> Result<Sent, NoMemory>
    requires kind { (kind ≡ 2) ⊎ (kind ≡ 5) }
    requires fits { IsTrue (pool_fits granted.now.pool) }
    ensures { IfOk result (λ sent. sent
        ≡ offer_to kind m.now granted.now.site.now granted.now.pool granted.now.address) }
{
    let offer = offer_of(key, kind, m, granted);
    reply_to(alloc, m, &offer)
}

fn offer_of(key: &mut HmacKey, kind: u8, m: &Asked<'_>, granted: &Granted<'_>) -> Offer
    ensures { result
        ≡ offer_of kind m.now granted.now.site.now granted.now.pool granted.now.address }
{
    let site = granted.site;
    let address = granted.address;
    key.turn_to(&site.secret);
    let name = file_name(key, client(m), address);
    offer_named(kind, site, granted.pool, name, address)
}
