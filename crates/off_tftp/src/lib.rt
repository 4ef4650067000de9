//! Files to modems (RFC 1350): what a modem's datagram does to transfers, and what becomes of them
//! as time passes.
//!
//! `Transfers` has what is live, each with its own file (`transfers`, `live`, `files`), whose body
//! may be shared with other files of the modem and with what is kept (`bodies`). A datagram is read
//! (`off_packets`); by the peer's transfer it's told what is to be read of the tables
//! (`acknowledging`, `gathering`), and what was read judges it (`judging`, `opening`). That the
//! tables agreed is remembered (`agreements`). What it comes to is a value (`deciding`) before
//! anything is said or done (`datagrams`); whoever calls says it and has its change made.
#![tactic(auto)]

mod acknowledging;
mod agreements;
mod bodies;
mod datagrams;
mod deciding;
mod files;
mod gathering;
mod judging;
mod live;
mod opening;
mod requests;
mod ticking;
mod transfers;

pub use agreements::{Agreement, Agreements};
pub use deciding::{Change, Decision};
pub use off_kept::{Kept, KeptBody};
pub use off_packets::{Options, Packet, PacketFault, read_packet};
pub use off_transfer_rules::{TftpWord, Ticked};
pub use requests::Datagram;
pub use ticking::TickDone;
pub use transfers::Transfers;
