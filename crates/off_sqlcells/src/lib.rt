//! The cells of a table of a database: `SqlCells`.
//!
//! The table `office` has a row for each cell, its key in the column `ident` and its value in
//! `val`. `schemas` tells whether a database is the office's, `statements` reads rows, `writing`
//! changes them in one transaction, and `sql_cells` makes cells of both. `ordered` has the law of
//! stores by which the rows of a table that was there are cells. What the texts of the statements
//! mean is proved in `proofs/Texts`, and what each makes of the cells in `proofs/Content` and
//! `proofs/PutContent`.
#![tactic(auto)]

mod counting;
mod making;
mod ordered;
mod refusals;
mod schemas;
mod sql_cells;
mod statements;
mod writing;

pub use ordered::Ordered;
pub use sql_cells::SqlCells;
