//! The job `import`: reads a table in CSV from its source, does it as one command, and tells how
//! many rows it has, or why it isn't done.
//!
//! The tables are opened first. Then the source is read to its end, its bytes are read as an
//! import, and the office does it.
#![tactic(auto)]

mod importing;
mod telling;

pub use importing::{Ended, import_input};
