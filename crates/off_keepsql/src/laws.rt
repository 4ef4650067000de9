//! Laws of tables in cells. What the functions do is of no use; their contracts are the laws.
ghost use Rattle.sqlite.specs.Steps.{over_memory};
ghost use Rattle.off_keepsql.specs.Begin.{HonestFilesAreSteady};
ghost use Rattle.off_keepsql.specs.Laws.{EntriesAreTables, TablesAreEntries};
ghost use Rattle.off_sqlcells.specs.Stands.{IsSteady};

use sqlite_disk::Disk;

/// Cells store tables where each of them is a key and a row.
pub fn entries_are_tables()
    ensures { EntriesAreTables }
{}

/// Each cell of tables is a key and a row.
#[tactic(auto, using(crate::proofs::LawLemmas::tables_are_entries))]
pub fn tables_are_entries()
    ensures { TablesAreEntries }
{}

/// Nobody else writes a store in memory.
pub fn memory_is_steady()
    ensures { IsSteady over_memory }
{}

/// Nor does anybody else write a file, over a disk that returns what was written.
pub fn honest_files_are_steady<D: Disk>()
    ensures { HonestFilesAreSteady D.Disk }
{}
