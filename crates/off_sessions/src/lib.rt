//! Clerks' connections, and what each is told.
//!
//! Of a connection that is live there stands what has come of its request (`connections`). An
//! answer, to a request that is at fault or a command that was done, is made whole and put in hand
//! with the end of its connection and the line of the log (`answers`): whoever does the command
//! does it behind that. Nothing here reads the tables.
#![tactic(auto)]

mod answers;
mod connections;

pub use answers::{answer_fault, answer_reply, close_busy, fail};
pub use connections::Connections;
