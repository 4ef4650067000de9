//! The outside on a real machine: the link over its sockets, and its standard streams as a source
//! and a sink. No rule of the office stands here.
#![tactic(auto)]

mod addresses;
mod clerks;
mod datagrams;
mod log;
mod socket_link;
mod standard;
mod system;
mod watching;

pub use addresses::Addresses;
pub use log::{Log, LogSink};
pub use socket_link::{OpenErr, SocketLink};
pub use standard::{StandardInput, StandardOutput};
pub use system::open_standard_streams;
