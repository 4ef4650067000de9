//! How the rows of subscribers, modems, classes, pools and leases are read, and when the office's
//! tables are good, in definitions alone (`specs/`).
#![tactic(auto)]

mod counts;

pub use counts::Counts;
