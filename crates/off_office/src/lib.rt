//! One event of the office: whose it is, and nothing else. Each service decides for itself; here is
//! only the way to it, and behind it the way out: what is said is handed to the link in order
//! (`sending`). An item that doesn't go out is passed over, and counted by the link.
#![tactic(auto)]

mod closed;
mod commanding;
mod messages;
mod office;
mod pieces;
mod queries;
mod sending;
mod transfers;

pub use closed::stay_closed;
pub use office::{Office, StartErr};
pub use sending::{send_all, send_one};
