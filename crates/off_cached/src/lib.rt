//! The tables of a store, in memory too: rows are read there, and each commit is the store's first.
//!
//! What the office reads, then, is what it read when the store was opened and what was written
//! since, whatever becomes of the store meanwhile.
#![tactic(auto)]

mod cached;
mod reading;
mod whole;

pub use cached::Cached;
pub use whole::Whole;
