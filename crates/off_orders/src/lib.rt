//! What clerks order, what they are answered, and the rules that refuse them, as plain types.
//!
//! `sound` tells whether a command may come from a clerk at all. What each command does stands in
//! definitions alone (`specs/Clerk.antt`).
#![tactic(auto)]

mod bounds;
mod orders;
mod rules;
mod shown;

pub use bounds::sound;
pub use orders::{Command, ImportRow, ImportRows, Reply};
pub use rules::Rule;
pub use shown::ShownRow;
