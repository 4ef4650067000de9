//! The words of the command line, read.
#![tactic(auto)]

mod drill_words;
mod import_words;
mod jobs;
mod words;

pub use import_words::ImportForm;
pub use jobs::{Asked, read_words};
pub use words::{Form, Wanted, place};
