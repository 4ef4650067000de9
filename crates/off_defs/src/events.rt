use off_base::{Bytes, Moment, Peer};

/// A service of the office that answers datagrams, each on a UDP port of its own.
#[derive(Clone, Copy, PartialEq, Eq)]
pub enum Service {
    /// Addresses, by DHCP (RFC 2131).
    Dhcp,
    /// The time of day (RFC 868).
    Time,
    /// Configuration files, by TFTP (RFC 1350).
    Tftp,
}

/// What happened.
#[derive(Drop)]
pub enum What {
    /// A datagram came to a service.
    Datagram {
        service: Service,
        from: Peer,
        bytes: Bytes,
    },
    /// A piece of a clerk's connection came.
    Piece {
        conn: u32,
        bytes: Bytes,
    },
    /// A clerk's connection ended.
    Closed {
        conn: u32,
    },
    /// Time passed.
    Tick,
    /// There is nothing more to come.
    End,
}

/// One event: what happened, and when.
#[derive(Drop)]
pub struct Event {
    pub at: Moment,
    pub what: What,
}
