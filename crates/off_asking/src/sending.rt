//! What is sent for a message: to the relay's server port, or without a relay to the client's own.

ghost use Rattle.std.specs.Prelude.{◌≡◌, ◌⊎◌, IfOk, IsTrue};
ghost use Rattle.off_account_rules.specs.Rows.{pool_fits};
ghost use Rattle.off_asking.specs.Sending.{destination, nak_to, offer_named, reply_to};

use crate::asking::Asked;
use off_base::{Ip4, NoMemory, Peer};
use off_defs::{Pool, Sent, Service, Site};
use off_dhcp::{Offer, write_nak, write_reply};
use std::alloc::Global;

// The UDP ports of servers and clients (RFC 2131, section 4.1).
const SERVER_PORT: u16 = 67;

const CLIENT_PORT: u16 = 68;

const EVERYONE: Ip4 = Ip4(0xffff_ffff);

/// A NAK.
pub fn nak_to(alloc: Global, m: &Asked<'_>, site: &Site) -> Result<Sent, NoMemory>
    ensures { IfOk result (λ sent. sent ≡ nak_to m.now site.now) }
{
    let bytes = write_nak(alloc, m.message(), site.server)?;
    Ok(Sent::Datagram {
        service: Service::Dhcp,
        to: destination(m, EVERYONE),
        bytes,
    })
}

/// An OFFER (2) or an ACK (5).
pub fn reply_to(alloc: Global, m: &Asked<'_>, offer: &Offer) -> Result<Sent, NoMemory>
    requires kind { (offer.now.kind ≡ 2) ⊎ (offer.now.kind ≡ 5) }
    requires fits { IsTrue (pool_fits offer.now.pool) }
    ensures { IfOk result (λ sent. sent ≡ reply_to m.now offer.now) }
{
    let bytes = write_reply(alloc, m.message(), offer)?;
    Ok(Sent::Datagram {
        service: Service::Dhcp,
        to: destination(m, m.ciaddr()),
        bytes,
    })
}

/// What an address is offered or bound with, and the name of the client's boot file.
pub fn offer_named(kind: u8, site: &Site, pool: Pool, name: [u8; 32], address: Ip4) -> Offer
    ensures { result ≡ offer_named kind site.now pool name address }
{
    Offer {
        kind,
        yiaddr: address,
        site: site.copy(),
        pool,
        name,
    }
}

fn destination(m: &Asked<'_>, direct: Ip4) -> Peer
    ensures { result ≡ destination m.now direct }
{
    let relay = m.giaddr();
    if relay.0 == 0 {
        Peer {
            ip: direct,
            port: CLIENT_PORT,
        }
    } else {
        Peer {
            ip: relay,
            port: SERVER_PORT,
        }
    }
}
