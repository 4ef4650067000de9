//! What a clerk's command of any kind does to the tables, an import of many rows too.
//!
//! An import stands for the commands that put its rows, each over the tables that those before it
//! left. Its rows aren't sorted, and the tables aren't written meanwhile: which keys the rows so
//! far have put is kept in order (`progress`), and a row's rules ask there before they ask the
//! keeper (`judging`). Last comes the row of the batch itself (`importing`).
//!
//! Any other command is decided by `off_accounts`; `commands` takes either to its place.
#![tactic(auto)]

mod commands;
mod import_counting;
mod importing;
mod judging;
mod progress;
mod putting;

pub use commands::decide;
