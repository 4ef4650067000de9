//! Plays scripts of examples: each section is served by `off_serve::run` over objects in memory and
//! a keeper of the program's choice, and what comes of it is printed on a page.
//!
//! `tests/examples/README.md` says how a script is written.
#![tactic(auto)]

mod comparing;
mod events;
mod kept;
mod making;
mod outside;
mod results;
mod scene;
mod stage;
mod wanting;

pub use kept::Kept;
pub use stage::Stage;
