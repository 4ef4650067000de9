ghost use Rattle.std.specs.Prelude.{IfOk};
ghost use Rattle.off_rows.specs.RowBytes.{CanSpell};

use crate::imports::read_kind;
use off_base::{Bytes, Mac};
use off_defs::{Key, Row, Write};
use off_orders::{Command, ImportRow, ImportRows, sound};
use off_rows::{RowErr, copy_row, decode, decode_key, encode, encode_key, key_text};
use script_words::{Line, Page, Unread, read_command, read_key, read_write, show_row};
use std::alloc::Global;

/// `key subscriber 7`: the key's bytes, and its text.
pub fn key(page: &mut Page, line: Line<'_>) -> Result<(), Unread> {
    let mut line = line;
    let key = read_key(&mut line)?;
    page.hex(encode_key(&key).as_slice())?;
    page.text(" ")?;
    Ok(page.raw(key_text(&key).as_slice())?)
}

/// `key-of 0200000007`: the key of these bytes, or `none`.
pub fn key_of(alloc: Global, page: &mut Page, line: Line<'_>) -> Result<(), Unread> {
    let mut line = line;
    let bytes = line.bytes(alloc)?;
    match decode_key(bytes.as_slice()) {
        Some(key) => Ok(page.raw(key_text(&key).as_slice())?),
        None => Ok(page.text("none")?),
    }
}

/// `row-of subscriber 7 010203416e6e`: the row of these bytes and the bytes of its copy, or the
/// place that can't be read.
pub fn row_of(alloc: Global, page: &mut Page, line: Line<'_>) -> Result<(), Unread> {
    let mut line = line;
    let key = read_key(&mut line)?;
    let bytes = line.bytes(alloc)?;
    match read_row(alloc, &key, bytes.as_slice()) {
        Ok(row) => show_both(alloc, page, &key, &row),
        Err(RowErr::BadRow(place)) => {
            page.text("bad ")?;
            Ok(page.number(place as u64)?)
        }
        Err(RowErr::Memory) => Err(Unread::Memory),
    }
}

// A row that was read can be spelled again.
#[tactic(auto, using(crate::proofs::Spelling::spells))]
fn read_row(alloc: Global, key: &Key, bytes: &[u8]) -> Result<Row, RowErr>
    ensures { IfOk result (λ row. CanSpell row) }
{
    decode(alloc, key, bytes)
}

fn show_both(alloc: Global, page: &mut Page, key: &Key, row: &Row) -> Result<(), Unread>
    requires { CanSpell row.now }
{
    show_row(page, key, &copy_row(alloc, row)?)?;
    page.text("; ")?;
    let bytes = encode(alloc, row)?;
    Ok(page.hex(bytes.as_slice())?)
}

/// `sound put ROW`, `sound remove KEY`, `sound show KEY`, or `sound import subscribers 2000 ROW`,
/// so many rows: whether a clerk may say so.
pub fn is_sound(alloc: Global, page: &mut Page, line: Line<'_>) -> Result<(), Unread> {
    let mut line = line;
    let command = command_of(alloc, &mut line)?;
    Ok(page.text(if sound(&command) { "yes" } else { "no" })?)
}

fn command_of(alloc: Global, line: &mut Line<'_>) -> Result<Command, Unread> {
    let mut ahead = *line;
    match ahead.word() {
        b"import" => import_of(alloc, &mut ahead),
        _ => read_command(alloc, line),
    }
}

fn import_of(alloc: Global, line: &mut Line<'_>) -> Result<Command, Unread> {
    let kind = read_kind(line.word())?;
    let count = line.count()?;
    Ok(Command::Import {
        kind,
        batch: 9,
        digest: [0; 16],
        rows: rows_of(alloc, count, line.rest())?,
    })
}

fn rows_of(alloc: Global, count: u32, text: &[u8]) -> Result<ImportRows, Unread> {
    let mut rows = ImportRows::new(alloc);
    for _ in 0..count {
        rows.push(import_row(alloc, text)?)?;
    }
    Ok(rows)
}

fn import_row(alloc: Global, text: &[u8]) -> Result<ImportRow, Unread> {
    let mut line = Line::over(text);
    match read_write(alloc, &mut line)? {
        Write::Put(key, row) => row_of_import(key, &row),
        Write::Drop(_key) => Err(Unread::Words),
    }
}

fn row_of_import(key: Key, row: &Row) -> Result<ImportRow, Unread> {
    match key {
        Key::Subscriber(number) => subscriber_of(number, row),
        Key::Modem(mac) => modem_of(mac, row),
        _ => Err(Unread::Words),
    }
}

fn subscriber_of(number: u32, row: &Row) -> Result<ImportRow, Unread> {
    let Row::Subscriber(held) = row else {
        return Err(Unread::Words);
    };
    Ok(ImportRow::Subscriber(number, held.copy()))
}

fn modem_of(mac: Mac, row: &Row) -> Result<ImportRow, Unread> {
    let Row::Modem(held) = row else {
        return Err(Unread::Words);
    };
    Ok(ImportRow::Modem(mac, held.copy()))
}

/// Reads a word of hexadecimal digits.
pub fn word(alloc: Global, line: &mut Line<'_>) -> Result<Bytes, Unread> {
    let mut bytes = Bytes::new(alloc);
    line.hex(alloc, &mut bytes)?;
    Ok(bytes)
}
