//! TFTP packets (RFC 1350; options by RFC 2347): those that clients send read, and those that the
//! office sends written.
#![tactic(auto)]

mod faults;
mod packets;
mod reader;
mod replies;

pub use faults::PacketFault;
pub use packets::{Options, Packet};
pub use reader::read_packet;
pub use replies::{data_packet, error_packet, oack_packet};
