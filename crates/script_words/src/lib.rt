//! The words of examples that are data: bytes, numbers, keys, rows and settings, read from a line
//! of a script and printed again; and how a script of questions is answered.
//!
//! What plays examples (`office_stage`, `format_questions`, `clerk_questions`) shares it.
//! Nothing is promised of it but that it returns: what a script shows stands beside it as the text
//! that is expected.
#![tactic(auto)]

mod commands;
mod entries;
mod line;
mod page;
mod playing;
mod quoted;
mod rows;
mod shown;
mod trees;

pub use commands::read_command;
pub use entries::read_write;
pub use line::{Line, Unread};
pub use page::Page;
pub use playing::{Answers, answer_all};
pub use rows::read_key;
pub use shown::{show_key, show_row, show_seen, show_seen_pool};
pub use trees::{read_settings_of, show_settings};
