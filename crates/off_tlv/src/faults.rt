/// Why a file spells no settings: its first fault in the order of reading. Places count bytes from
/// 0.
#[derive(Clone, Copy, PartialEq, Eq)]
pub enum ReadFault {
    /// The setting whose code stands here passes the end of the file, or of its group; its length
    /// byte may be missing.
    Cut(usize),
    /// The settings reach the end of the file, and no end marker is there.
    NoEnd,
    /// The first byte behind the end marker that isn't zero.
    AfterEnd(usize),
    /// A zero in the place of a code, before the end marker.
    EarlyPad(usize),
}

/// Why settings weren't read.
#[derive(Clone, Copy, PartialEq, Eq)]
pub enum FileErr {
    /// The file has this fault.
    Read(ReadFault),
    /// The file is good, and memory for its settings was refused.
    Memory,
}
