ghost use Rattle.std.specs.Prelude.{◌≡◌, ◌≢◌, IsTrue, IfOk, MatchOption, length, bytes_eq};
ghost use Rattle.std.specs.Cmp.Lexicographic.{pointwise};
ghost use Rattle.csv.specs.Records.{fields_of};
ghost use Rattle.off_defs.specs.declared.tables.ImportKind.TheVariants.{Subscribers, Modems};
ghost use Rattle.off_orders.specs.Sound.{is_row_of};
ghost use Rattle.off_import.specs.Rows.{four_listed};
ghost use Rattle.off_import_rules.specs.Columns.{columns};
ghost use Rattle.off_import_rules.specs.Reading.{row_of_record};

use crate::values::{devices, flag, mac, number, short};
use csv::ByteRecord;
use off_defs::{ImportKind, Modem, Subscriber};
use off_import_rules::ImportFault;
use off_orders::ImportRow;

// The fields of a record that has one for each column.
#[derive(Clone, Copy)]
struct Fields<'a> {
    first: &'a [u8],
    second: &'a [u8],
    third: &'a [u8],
    fourth: &'a [u8],
}

/// Whether a record is the names of the columns.
pub(crate) fn is_header(kind: ImportKind, header: &ByteRecord) -> bool
    ensures { result ≡ pointwise bytes_eq (fields_of header.now) (columns kind) }
{
    let Some(fields) = four_fields(header) else {
        return false;
    };
    match kind {
        ImportKind::Subscribers => names_subscribers(fields),
        ImportKind::Modems => names_modems(fields),
    }
}

fn names_subscribers(fields: Fields<'_>) -> bool
    ensures { result ≡ pointwise bytes_eq (four_listed fields.entry) (columns Subscribers) }
{
    fields.first == b"subscriber".as_slice()
        && fields.second == b"active".as_slice()
        && fields.third == b"cpes".as_slice()
        && fields.fourth == b"name".as_slice()
}

fn names_modems(fields: Fields<'_>) -> bool
    ensures { result ≡ pointwise bytes_eq (four_listed fields.entry) (columns Modems) }
{
    fields.first == b"mac".as_slice()
        && fields.second == b"subscriber".as_slice()
        && fields.third == b"class".as_slice()
        && fields.fourth == b"serial".as_slice()
}

/// The row of a number that a record is.
pub(crate) fn read_row(
    kind: ImportKind,
    row: u32,
    held: &ByteRecord,
) -> Result<ImportRow, ImportFault>
    ensures exact { result ≡ row_of_record kind row (fields_of held.now) }
    ensures sound { IfOk result (λ row. IsTrue (is_row_of kind row)) }
{
    let Some(fields) = four_fields(held) else {
        return Err(ImportFault::Width(row));
    };
    match kind {
        ImportKind::Subscribers => read_subscriber(row, fields),
        ImportKind::Modems => read_modem(row, fields),
    }
}

fn read_subscriber(row: u32, fields: Fields<'_>) -> Result<ImportRow, ImportFault>
    ensures exact { result ≡ row_of_record Subscribers row (four_listed fields.entry) }
    ensures sound { IfOk result (λ row. IsTrue (is_row_of Subscribers row)) }
{
    let number = number(row, 1, fields.first)?;
    let active = flag(row, 2, fields.second)?;
    let cpes = devices(row, 3, fields.third)?;
    let name = short(row, 4, fields.fourth)?;
    Ok(ImportRow::Subscriber(number, Subscriber { active, cpes, name }))
}

fn read_modem(row: u32, fields: Fields<'_>) -> Result<ImportRow, ImportFault>
    ensures exact { result ≡ row_of_record Modems row (four_listed fields.entry) }
    ensures sound { IfOk result (λ row. IsTrue (is_row_of Modems row)) }
{
    let mac = mac(row, 1, fields.first)?;
    let subscriber = number(row, 2, fields.second)?;
    let class = number(row, 3, fields.third)?;
    let serial = short(row, 4, fields.fourth)?;
    Ok(ImportRow::Modem(
        mac,
        Modem {
            subscriber,
            class,
            serial,
        },
    ))
}

// The fields of a record that has as many as a table has columns.
fn four_fields(held: &ByteRecord) -> Option<Fields<'_>>
    ensures { MatchOption result (length (fields_of held.now) ≢ 4)
        (λ fields. fields_of held.now ≡ four_listed fields) }
{
    if held.len() != 4 {
        return None;
    }
    let Some(first) = held.get(0) else {
        return None;
    };
    let Some(second) = held.get(1) else {
        return None;
    };
    let Some(third) = held.get(2) else {
        return None;
    };
    let Some(fourth) = held.get(3) else {
        return None;
    };
    Some(Fields {
        first,
        second,
        third,
        fourth,
    })
}
