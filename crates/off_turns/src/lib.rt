//! The loop over events: takes one, has the office act on it, sends what it says and writes the
//! line of the log.
#![tactic(auto)]

mod events;
mod lines;
mod sending;
mod taking;
mod turning;

pub use events::{Stop, serve_events};
