//! What is asked, and what was found for it.

use crate::files::File;
use crate::transfers::Place;
use off_base::{Mac, Moment, Peer};
use off_packets::Options;

/// A datagram.
#[derive(Clone, Copy)]
pub struct Datagram<'a> {
    /// From whom it is.
    pub from: Peer,
    /// The hub of that address, by the pool in which it lies, and `None` where it lies in none.
    /// Whoever takes the datagram knows it without reading; it's one call less where there is none.
    pub hub: Option<u32>,
    /// When it came.
    pub at: Moment,
    /// Its bytes.
    pub bytes: &'a [u8],
}

/// A read request, with the place of its peer's transfer, and the name and the options for which it
/// asks.
#[derive(Clone, Copy)]
pub(crate) struct Request<'a> {
    pub(crate) from: Peer,
    pub(crate) place: Place,
    pub(crate) hub: Option<u32>,
    pub(crate) at: Moment,
    pub(crate) bytes: &'a [u8],
    pub(crate) name: &'a [u8],
    pub(crate) options: Options,
}

/// What was found for a request: its modem, whose subscriber that is, and its file.
#[derive(Drop)]
pub(crate) struct Grant {
    pub(crate) modem: Mac,
    pub(crate) subscriber: u32,
    pub(crate) file: File,
}
