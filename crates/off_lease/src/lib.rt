//! The service of leases: what a client's DHCP message does to the tables, and how it's answered
//! (RFC 2131).
//!
//! `answer` reads what it needs by a keeper (`gathering`), and takes pools and free addresses from
//! what is kept of them (`pools`, `choosing`); what it finds is judged by rules in their order
//! (`judging`, `ruling`), and what is granted (`granting`) is settled without a keeper (`writing`,
//! `replying`, `settling`). It commits nothing.
#![tactic(auto)]

mod answering;
mod choosing;
mod gathering;
mod granting;
mod judging;
mod pools;
mod replying;
mod ruling;
mod settling;
mod writing;

pub use answering::answer;
pub use off_lease_rules::{DhcpWord, LeaseStep};
