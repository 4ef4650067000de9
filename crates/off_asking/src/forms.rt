use off_base::Ip4;

/// The address that an option names, which has four bytes.
#[derive(Clone, Copy, PartialEq, Eq)]
pub enum Named {
    /// There is no such option.
    Absent,
    /// It hasn't four bytes.
    Malformed,
    /// It names this address.
    At(Ip4),
}

/// For which address a REQUEST asks, and how (RFC 2131, section 4.3.2).
#[derive(Clone, Copy, PartialEq, Eq)]
pub enum Form {
    /// The client has chosen an offer.
    Selecting(Ip4),
    /// It began anew, and had the address before.
    InitReboot(Ip4),
    /// It has the address, and wants to keep it: it renews or rebinds.
    Renewing(Ip4),
    /// None of these.
    NoForm,
}
