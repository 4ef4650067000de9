//! Cells: values of bytes by keys of bytes, which a database has.
//!
//! `Cells` stands between a keeper of the tables and the database. `MemCells` are in memory.
#![tactic(auto)]

mod cells;
mod mem_cells;
mod sorted;
mod writes;

pub use cells::Cells;
pub use mem_cells::MemCells;
pub use writes::{CellWrite, CellWrites};
