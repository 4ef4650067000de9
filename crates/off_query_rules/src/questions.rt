use off_base::{Ip4, Mac};

/// What a query asks (RFC 4388, section 6.2).
#[derive(Clone, Copy, PartialEq, Eq)]
pub enum Question {
    /// Who has this address.
    ByAddress(Ip4),
    /// Which address this client has.
    ByMac(Mac),
    /// Nothing that the office answers.
    Formless,
}
