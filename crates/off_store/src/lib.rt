//! Where the tables stand: in memory, in a journal or in a database. How the two in a file are
//! opened or made, and why they aren't.
#![tactic(auto)]

mod any_keeper;
mod journal;
mod opening;
mod store;

pub use any_keeper::AnyKeeper;
pub use journal::{FileJournal, open_journal};
pub use opening::{OfficeKeeper, Place, in_memory, open_keeper, place_named};
pub use store::{FileKeeper, StoreErr, StoredKeeper, open_store};
