ghost use Rattle.std.specs.Prelude.{◌≡◌, ◌≤◌, IfOk};
ghost use Rattle.off_import_rules.specs.Columns.{number_cell, flag_cell, devices_cell};
ghost use Rattle.off_import_rules.specs.Columns.{text_cell, mac_cell};
ghost use Rattle.off_import_rules.specs.Reading.{cell_in};
ghost use Rattle.off_import_rules.specs.declared.faults.ImportFault.TheVariants.{Field};

use off_base::{Mac, Short, read_mac, read_number};
use off_defs::MOST_DEVICES;
use off_import_rules::ImportFault;

// Each of these reads the text of the field that stands in a row and a column.

pub(crate) fn number(row: u32, column: u32, text: &[u8]) -> Result<u32, ImportFault>
    ensures { result ≡ cell_in row column number_cell text.now }
{
    match read_number(text, u64::from(u32::MAX)) {
        Some(number) => Ok(number as u32),
        None => Err(unread(row, column)),
    }
}

pub(crate) fn flag(row: u32, column: u32, text: &[u8]) -> Result<bool, ImportFault>
    ensures { result ≡ cell_in row column flag_cell text.now }
{
    if text == b"yes".as_slice() {
        return Ok(true);
    }
    if text == b"no".as_slice() {
        return Ok(false);
    }
    Err(unread(row, column))
}

pub(crate) fn devices(row: u32, column: u32, text: &[u8]) -> Result<u8, ImportFault>
    ensures exact { result ≡ cell_in row column devices_cell text.now }
    ensures least { IfOk result (λ count. 1 ≤ count) }
    ensures most { IfOk result (λ count. count ≤ 254) }
{
    match read_number(text, u64::from(MOST_DEVICES)) {
        Some(count) if 1 <= count => Ok(count as u8),
        _ => Err(unread(row, column)),
    }
}

pub(crate) fn short(row: u32, column: u32, text: &[u8]) -> Result<Short, ImportFault>
    ensures { result ≡ cell_in row column text_cell text.now }
{
    match Short::read(text) {
        Ok(short) => Ok(short),
        Err(_) => Err(unread(row, column)),
    }
}

pub(crate) fn mac(row: u32, column: u32, text: &[u8]) -> Result<Mac, ImportFault>
    ensures { result ≡ cell_in row column mac_cell text.now }
{
    match read_mac(text) {
        Ok(mac) => Ok(mac),
        Err(_) => Err(unread(row, column)),
    }
}

fn unread(row: u32, column: u32) -> ImportFault
    ensures { result ≡ Field row column }
{
    ImportFault::Field(row, column)
}
