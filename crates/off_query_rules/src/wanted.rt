use off_base::Ip4;

/// By what a pool is looked for.
#[derive(Clone, Copy, PartialEq, Eq)]
pub enum Wanted {
    /// The pool of a relay.
    Relay(Ip4),
    /// The pool that has an address.
    Address(Ip4),
}
