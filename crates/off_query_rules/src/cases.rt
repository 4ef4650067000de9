use off_base::Ip4;
use off_defs::{Lease, Site};

/// The rows by which a query is answered. An impossible row is one that isn't there.
#[derive(Drop)]
pub struct QueryCase {
    /// The site of the relay's pool.
    pub site: Option<Site>,
    /// The address that is asked for, where a pool of that site has it.
    pub address: Option<Ip4>,
    /// Its lease.
    pub lease: Option<Lease>,
}
