//! The ground of the office: addresses, moments, lists of bytes, and the numbers of a command line.
//!
//! Every crate of the office stands on this one. It knows no message, no table and no file.
#![tactic(auto)]

mod addresses;
mod cursors;
mod dotted;
mod index;
mod items;
mod joined;
mod macs;
mod moments;
mod numbers;
mod octets;
mod parts;
mod readable;
mod secrets;
mod trees;
mod wording;

pub use addresses::{Ip4, Peer};
pub use cursors::{Cursor, JoinedBytes};
pub use dotted::{IpText, NotIp, ip_text, read_ip};
pub use index::{Extent, OptionIndex};
pub use items::Items;
pub use joined::{Joined, first_cut, len_and_other};
pub use macs::{Mac, NotMac, mac_text, read_mac};
pub use moments::Moment;
pub use numbers::read_number;
pub use octets::{Bytes, NoMemory};
pub use parts::{END_OPTION, Step};
pub use secrets::Secret;
pub use trees::{Setting, Settings};
pub use wording::{NotShort, Short};
