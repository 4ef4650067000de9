use off_base::Ip4;
use off_defs::{Modem, Pool, Site};

/// The rows by which a message is judged. An impossible row is one that isn't there.
#[derive(Drop)]
pub struct Case {
    pub site: Option<Site>,
    /// The pool from which the client is served.
    pub pool: Option<Pool>,
    /// The client, where it is a modem of the operator.
    pub modem: Option<Modem>,
    /// The address that the client holds.
    pub held: Option<Ip4>,
}
