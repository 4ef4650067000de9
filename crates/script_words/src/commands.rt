use crate::entries::read_write;
use crate::line::{Line, Unread};
use crate::rows::read_key;
use off_defs::{Key, Row, Write};
use off_orders::Command;
use std::alloc::Global;

/// Reads what a clerk wants done: `put ROW`, `remove KEY` or `show KEY`. Behind the row of a pool
/// stands its hub's number, or nothing for the hub 0.
pub fn read_command(alloc: Global, line: &mut Line<'_>) -> Result<Command, Unread> {
    match line.word() {
        b"put" => put_of(alloc, line),
        b"remove" => Ok(Command::Remove(read_key(line)?)),
        b"show" => Ok(Command::Show(read_key(line)?)),
        _ => Err(Unread::Words),
    }
}

fn put_of(alloc: Global, line: &mut Line<'_>) -> Result<Command, Unread> {
    let Write::Put(key, row) = read_write(alloc, line)? else {
        return Err(Unread::Words);
    };
    put_row(key, row, line)
}

fn put_row(key: Key, row: Row, line: &mut Line<'_>) -> Result<Command, Unread> {
    match (key, row) {
        (Key::Hub(number), Row::Site(site)) => Ok(Command::PutHub(number, site)),
        (Key::Subscriber(number), Row::Subscriber(row)) => Ok(Command::PutSubscriber(number, row)),
        (Key::AddOn(owner, number), Row::AddOn(row)) => Ok(Command::PutAddOn(owner, number, row)),
        (Key::Modem(mac), Row::Modem(row)) => Ok(Command::PutModem(mac, row)),
        (Key::Class(number), Row::Class(row)) => Ok(Command::PutClass(number, row)),
        (Key::Pool(number), Row::Pool(row)) => Ok(Command::PutPool(number, row, hub(line)?)),
        (Key::DevicePool(number), Row::Pool(row)) => Ok(Command::PutDevicePool(number, row)),
        _ => Err(Unread::Words),
    }
}

fn hub(line: &mut Line<'_>) -> Result<u32, Unread> {
    if line.rest().is_empty() {
        return Ok(0);
    }
    line.count()
}
