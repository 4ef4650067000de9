ghost use Rattle.std.specs.Prelude.{◌≡◌};
ghost use Rattle.officed.specs.Ending.{exit_status};

/// How the program ended.
#[derive(Clone, Copy, PartialEq, Eq)]
pub(crate) enum Ended {
    /// The top call answered this status.
    Ran(u8),
    /// The last lines of the log couldn't be written, or a standard stream is closed and there is no
    /// null device to take its place.
    LogLost,
    /// Memory was wanted outside of the top call, and refused.
    NoMemory,
    /// A socket couldn't be opened.
    NoSocket,
    /// The store couldn't be opened or made.
    NoStore,
}

impl Ended {
    /// The exit status.
    pub(crate) fn status(self) -> u8
        ensures { result ≡ exit_status self }
    {
        match self {
            Ended::Ran(status) => status,
            Ended::LogLost => 4,
            Ended::NoMemory => 6,
            Ended::NoSocket => 10,
            Ended::NoStore => 11,
        }
    }
}
