ghost use Rattle.std.specs.Prelude.{◌≡◌, IfOk, IfErr};
ghost use Rattle.csv.specs.Reading.{default_config, records, strip_bom};
ghost use Rattle.csv.specs.Records.{fields_of};
ghost use Rattle.off_import.specs.Records.{StandsBetween, IsNext, records_left};
ghost use Rattle.off_import_rules.specs.declared.faults.ImportErr.TheVariants.{Memory};

use csv::{ByteRecord, Reader, ReaderBuilder};
use off_import_rules::ImportErr;
use std::alloc::Global;

/// A reader of all records of a text. They may differ in length: which row is too short or too
/// long is for the reader of rows to tell.
pub(crate) fn records_of(alloc: Global, text: &[u8]) -> Reader<&[u8]>
    ensures reading { StandsBetween result }
    ensures all { records_left result ≡ records default_config (strip_bom text.now) }
{
    ReaderBuilder::new()
        .has_headers(false)
        .flexible(true)
        .from_reader(alloc, text)
}

/// Reads the next record, and tells whether there is one.
pub(crate) fn next_record(
    reader: &mut Reader<&[u8]>,
    held: &mut ByteRecord,
) -> Result<bool, ImportErr>
    requires { StandsBetween reader.old }
    ensures next { IfOk result (λ found. IsNext found (fields_of held.new) reader.old reader.new) }
    ensures memory { IfErr result (λ err. err ≡ Memory) }
{
    let Ok(found) = reader.read_byte_record(held) else {
        // A slice is read without a fault, and records of any length are taken: memory was wanted.
        return Err(ImportErr::Memory);
    };
    Ok(found)
}
