//! The tables in a file: a journal of commits over a disk, which says what a crash at any moment
//! may leave.
#![tactic(auto)]

mod begin;
mod keeper;
mod laws;
mod reading;
mod spelling;

pub use begin::{OpenErr, Unopened};
pub use keeper::JournalKeeper;
pub use laws::{given_opens, good_or_bad, one_bad, one_journal};
pub use off_disk::{Disk, Failed};
