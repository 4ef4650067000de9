//! The tables in cells: a keeper over values of bytes by keys of bytes, which a database has.
//!
//! `Cells` stands between the keeper and the database. `SqlKeeper` spells keys and rows into cells,
//! reads them back, and counts a fault of its own at a cell that isn't a key and a row.
//! `SqlKeeper::begin` is over the cells of a table of a database.
#![tactic(auto)]

mod begin;
mod counts;
mod laws;
mod reading;
mod spelling;
mod sql_keeper;

pub use counts::Counts;
pub use laws::{entries_are_tables, honest_files_are_steady, memory_is_steady, tables_are_entries};
pub use off_cells::{CellWrite, CellWrites, Cells, MemCells};
pub use off_sqlcells::SqlCells;
pub use sql_keeper::SqlKeeper;
