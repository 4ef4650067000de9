//! A disk that says what a crash may leave, and records on it behind gates.
#![tactic(auto)]

mod ahead;
mod appending;
mod disk;

pub use ahead::ReadAhead;
pub use appending::{Appended, append, close, write_synced};
pub use disk::Disk;
pub use off_outside::Failed;
