use crate::events::Service;
use off_base::{Bytes, Peer};

/// One thing that the office sends.
#[derive(Drop)]
pub enum Sent {
    /// A datagram from a service's port.
    Datagram {
        service: Service,
        to: Peer,
        bytes: Bytes,
    },
    /// Bytes on a clerk's connection.
    Answer {
        conn: u32,
        bytes: Bytes,
    },
    /// The end of a clerk's connection.
    Close {
        conn: u32,
    },
}

/// How an event ended.
#[derive(Clone, Copy, PartialEq, Eq)]
pub enum Outcome {
    /// The office did what its services say.
    Did,
    /// Memory was wanted, and refused.
    Memory,
    /// The keeper of the tables failed.
    Keeper,
}
