use off_base::Ip4;
use off_defs::{Pool, Site};

/// What an OFFER or an ACK says besides what it repeats of the request.
#[derive(Drop)]
pub struct Offer {
    /// 2 for an OFFER, 5 for an ACK (option 53).
    pub kind: u8,
    pub yiaddr: Ip4,
    /// The server and the time server (`siaddr`, options 54 and 4), the time zone (option 2), the
    /// seconds of a lease (option 51), and the log server (option 7), where there is one.
    pub site: Site,
    /// The mask (option 1), by a prefix of 8 to 30 bits, and the router (option 3).
    pub pool: Pool,
    /// The name of the boot file, which `file` has.
    pub name: [u8; 32],
}
