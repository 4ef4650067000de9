//! What clerks ask and are answered: one HTTP request read as a command, and the JSON text (RFC
//! 8259) of a reply or a fault, with its status.
//!
//! It knows neither tables nor a keeper: whether a command's rules hold is decided elsewhere, and
//! what requests and answers mean stands in `off_clerk_rules`. A row that is shown is read back as
//! it was (`laws`).
#![tactic(auto)]

mod arrays;
mod commands;
mod details;
mod laws;
mod paths;
mod replies;
mod texts;
mod words;

pub use commands::command_of;
pub use details::fault_json;
pub use laws::a_shown_row_is_read_back;
pub use off_clerk_rules::{ClerkErr, CommandErr, Fault, Name};
pub use replies::reply_json;
pub use words::{fault_status, fault_word};
