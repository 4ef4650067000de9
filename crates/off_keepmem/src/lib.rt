//! The tables in memory: a keeper over shelves of rows.
//!
//! A commit first takes all the memory that it wants, and then makes its change without any, so it
//! does all of its writes or none.
#![tactic(auto)]

mod brief;
mod brief_rows;
mod entry;
mod hints;
mod kept_row;
mod mem_keeper;
mod order;
mod planned;
mod shelf;
mod table;

pub use mem_keeper::{MemKeeper, Plan};
