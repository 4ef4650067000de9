//! What a single command of a clerk does to the tables. Imports of many rows are in `off_commands`.
//!
//! A command is decided in three steps: what the tables have at its key (`subject`), the first of
//! its rules that is broken (`ruling` lists them, `testing` walks them), and what it writes and how
//! many rows there are then (`planning`, `counting`). Walks over the pools and over the leases, of
//! modems or of devices (`whose`), are in `searching` and `dropping`, and the one that looks up the
//! hub of each pool is in `hubs`. One that shows a row has no other rule than that there is one
//! (`showing`).
//!
//! `deciding` takes a command through these steps.
#![tactic(auto)]

mod counting;
mod deciding;
mod dropping;
mod hubs;
mod limits;
mod lost;
mod planning;
mod results;
mod ruling;
mod searching;
mod showing;
mod subject;
mod testing;
mod values;
mod wanted;
mod whose;

pub use deciding::decide_single;
pub use limits::{counts_put, limit_rule};
pub use results::{AccountErr, Planned};
