//! The service of devices: what a DHCP message of a client behind a modem does to the leases of
//! devices, and how it's answered (RFC 2131, RFC 3046).
//!
//! `answer_by` finds the modem (`modems`), and reads what it needs by a keeper (`gathering`). The
//! device's own lease and those of others it takes from an index of them by modem, and pools, free
//! addresses and hubs from what is kept of the pools (`known`): so no message walks over rows. What
//! it finds is judged by rules in their order (`judging`, `ruling`); an address is chosen
//! (`choosing`), and what becomes of the message is settled without a keeper (`writing`,
//! `replying`, `settling`). It commits nothing.
#![tactic(auto)]

mod answering;
mod choosing;
mod gathering;
mod judging;
mod known;
mod modems;
mod replying;
mod ruling;
mod settling;
mod writing;

pub use answering::{DeviceAnswer, answer, answer_by};
pub use known::Known;
pub use off_cpe_rules::{DeviceStep, DeviceWord};
