ghost use Rattle.std.specs.Prelude.{◌≡◌, IsTrue, IfOk};
ghost use Rattle.csv.specs.Reading.{default_config, records, strip_bom};
ghost use Rattle.off_orders.specs.Sound.{is_sound};
ghost use Rattle.off_import.specs.Rows.{AreRowsOf};
ghost use Rattle.off_import.specs.Records.{StandsBetween, records_left};
ghost use Rattle.off_import_rules.specs.Reading.{GivesImport, import_in, table_of_records};
ghost use Rattle.off_import_rules.specs.Reading.{rows_of_records};

use crate::records::{next_record, records_of};
use crate::rows::{is_header, read_row};
use csv::{ByteRecord, Reader};
use md5::{Digest, Md5};
use off_defs::ImportKind;
use off_import_rules::{ImportErr, ImportFault, MOST_ROWS};
use off_orders::{Command, ImportRows};
use std::alloc::Global;

/// The import that bytes mean: its rows, in order, and the digest of all bytes.
///
/// The first fault in the order of reading is told. Rows count from 1 behind the header, columns
/// from 1. `Memory` is want of memory.
pub fn read_import(
    alloc: Global,
    kind: ImportKind,
    batch: u64,
    bytes: &[u8],
) -> Result<Command, ImportErr>
    ensures exact { GivesImport (import_in kind batch bytes.now) result }
    ensures sound { IfOk result (λ command. IsTrue (is_sound command)) }
{
    let rows = read_table(alloc, kind, bytes)?;
    Ok(Command::Import {
        kind,
        batch,
        digest: Md5::digest(bytes),
        rows,
    })
}

fn read_table(alloc: Global, kind: ImportKind, bytes: &[u8]) -> Result<ImportRows, ImportErr>
    ensures exact { GivesImport
        (table_of_records kind (records default_config (strip_bom bytes.now))) result }
    ensures sound { IfOk result (AreRowsOf kind) }
{
    let mut reader = records_of(alloc, bytes);
    let mut held = ByteRecord::new(alloc);
    let found = next_record(&mut reader, &mut held)?;
    if found && is_header(kind, &held) {
        read_rows(alloc, kind, &mut reader, &mut held)
    } else {
        Err(ImportErr::Fault(ImportFault::Header))
    }
}

// The rows that are left, from the first on. The record is room for each of them in turn.
fn read_rows(
    alloc: Global,
    kind: ImportKind,
    reader: &mut Reader<&[u8]>,
    held: &mut ByteRecord,
) -> Result<ImportRows, ImportErr>
    requires { StandsBetween reader.old }
    ensures exact { GivesImport (rows_of_records kind 1 (records_left reader.old)) result }
    ensures sound { IfOk result (AreRowsOf kind) }
{
    let mut rows = ImportRows::new(alloc);
    for number in 1..MOST_ROWS + 1 {
        let found = next_record(reader, held)?;
        if !found {
            return Ok(rows);
        }
        let row = read_row(kind, number, held)?;
        let Ok(()) = rows.push(row) else {
            return Err(ImportErr::Memory);
        };
    }
    let found = next_record(reader, held)?;
    if found {
        Err(ImportErr::Fault(ImportFault::TooMany))
    } else {
        Ok(rows)
    }
}
