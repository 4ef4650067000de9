//! The bytes of an import read as a command: a table in CSV (RFC 4180), each row a subscriber or a
//! modem.
//!
//! It knows neither tables nor a keeper: whether the rules of the rows hold is decided elsewhere.
#![tactic(auto)]

mod importing;
mod records;
mod rows;
mod telling;
mod values;

pub use importing::read_import;
pub use off_import_rules::{ImportErr, ImportFault, MOST_ROWS};
pub use telling::{FaultText, fault_detail, fault_words};
