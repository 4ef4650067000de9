use off_base::NoMemory;
use off_defs::{ImportKind, Key, Row};
use off_import::{ImportErr, fault_words, read_import};
use off_orders::{Command, ImportRow, ImportRows};
use script_words::{Line, Page, Unread, show_row};
use std::alloc::Global;

// How many of an import's rows are printed.
const MOST_SHOWN: usize = 10;

/// `import modems 'mac,..'`: the digest, the number of rows and the last of them, or the first
/// fault.
pub fn import(alloc: Global, page: &mut Page, line: Line<'_>) -> Result<(), Unread> {
    let mut line = line;
    let kind = read_kind(line.word())?;
    let bytes = line.bytes(alloc)?;
    match read_import(alloc, kind, 9, bytes.as_slice()) {
        Ok(command) => show_import(page, &command),
        Err(ImportErr::Fault(fault)) => Ok(page.raw(fault_words(fault).as_slice())?),
        Err(ImportErr::Memory) => Err(Unread::Memory),
    }
}

/// Reads the kind of an import.
pub fn read_kind(word: &[u8]) -> Result<ImportKind, Unread> {
    match word {
        b"subscribers" => Ok(ImportKind::Subscribers),
        b"modems" => Ok(ImportKind::Modems),
        _ => Err(Unread::Words),
    }
}

fn show_import(page: &mut Page, command: &Command) -> Result<(), Unread> {
    let Command::Import { digest, rows, .. } = command else {
        return Err(Unread::Words);
    };
    page.hex(digest)?;
    page.text(" rows ")?;
    page.number(rows.len() as u64)?;
    Ok(show_rows(page, rows)?)
}

fn show_rows(page: &mut Page, rows: &ImportRows) -> Result<(), NoMemory> {
    for place in rows.len().saturating_sub(MOST_SHOWN)..rows.len() {
        page.text("; ")?;
        show_import_row(page, rows.get(place))?;
    }
    Ok(())
}

fn show_import_row(page: &mut Page, row: &ImportRow) -> Result<(), NoMemory> {
    match row {
        ImportRow::Subscriber(number, held) => {
            show_row(
                page,
                &Key::Subscriber(*number),
                &Row::Subscriber(held.copy()),
            )
        }
        ImportRow::Modem(mac, held) => show_row(page, &Key::Modem(*mac), &Row::Modem(held.copy())),
    }
}
