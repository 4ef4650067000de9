//! DHCP messages of clients and the replies to them, byte for byte (RFC 2131, 2132, 3046, 3396).
//!
//! Reading a message takes no memory. The crate knows neither tables nor moments.
#![tactic(auto)]

mod faults;
mod heads;
mod offers;
mod pieces;
mod reading;
mod relayed;
mod replies;

pub use faults::{DhcpFault, MAGIC_COOKIE};
pub use heads::Head;
pub use off_base::Joined;
pub use offers::Offer;
pub use pieces::{finish, push_number, push_option, push_zeros};
pub use reading::Message;
pub use relayed::push_relay;
pub use replies::{write_nak, write_reply};
