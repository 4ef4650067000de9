ghost use Rattle.std.specs.Prelude.{◌≡◌};
ghost use Rattle.off_packets.specs.Packets.{has_option};

/// A TFTP packet as a client sends it (RFC 1350, section 5).
#[derive(Clone, Copy)]
pub enum Packet<'a> {
    /// A read request: a file's name, and what its options ask for.
    Read { name: &'a [u8], options: Options },
    /// A write request.
    Write,
    /// The packet of this number has come.
    Ack(u16),
    /// The client gives up.
    Error,
    /// A packet of another kind.
    Other,
}

/// The options of a read request that are read (RFC 2347), each where it's there and has a value of
/// its kind.
#[derive(Clone, Copy, PartialEq, Eq)]
pub struct Options {
    /// The size of blocks that is asked for (RFC 2348).
    pub blksize: Option<u16>,
    /// Whether the file's length is asked for (RFC 2349).
    pub tsize: bool,
    /// The seconds between resends that are asked for (RFC 2349).
    pub timeout: Option<u8>,
}

impl Options {
    /// Whether any was read.
    pub fn has_any(&self) -> bool
        ensures { result ≡ has_option self.now }
    {
        self.blksize.is_some() || self.tsize || self.timeout.is_some()
    }
}
