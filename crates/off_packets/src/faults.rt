/// Why a datagram is no TFTP packet that the office reads.
#[derive(Clone, Copy, PartialEq, Eq)]
pub enum PacketFault {
    /// It hasn't the form of its kind, or no kind, or is too long.
    Form,
    /// A read request has another mode than `octet`.
    Mode,
}
