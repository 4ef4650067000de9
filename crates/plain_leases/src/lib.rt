//! What a client's DHCP message does to leases, by plain reading of rows: the program with which
//! `lease_tests` compares the service's answers, and the readers of rows that it's made of.
//!
//! It follows the definitions of `off_lease_rules` and `off_asking` sentence by sentence, with none
//! of what an office keeps of its tables, and nothing of the service's. It's as slow as it's plain,
//! and no contract says what it answers.
#![tactic(auto)]

mod plain;
mod reading;
mod saying;

pub use plain::plain_answer;
pub use reading::{
    choice_in, has, has_ended, held_in, hub_in, lease_in, least_in, modem_in, pools_in, site_in,
};
