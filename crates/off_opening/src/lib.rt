//! The test of the tables when the office opens: their least bad key, how many rows there are, and
//! what their modems use.
//!
//! The rows are walked once. What other rows are compared with is kept of each, in the order of
//! keys, and the lines are tested on that.
#![tactic(auto)]

mod counting;
mod marks;
mod migrating;
mod opening;
mod owners;
mod standing;
mod using;

pub use counting::count_rows;
pub use migrating::read_migration;
pub use opening::{Opening, first_bad, open_tables};
pub use using::read_users;
