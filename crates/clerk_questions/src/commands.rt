ghost use Rattle.std.specs.Prelude.{IsTrue};
ghost use Rattle.off_orders.specs.Sound.{is_sound};

use crate::faults::show_fault;
use off_base::{Bytes, NoMemory};
use off_clerk::{CommandErr, Fault, command_of, reply_json};
use off_defs::{Hold, ImportKind, Key, Lease};
use off_orders::{Command, Reply, ShownRow};
use script_words::{Line, Page, Unread, show_key, show_seen, show_seen_pool};
use std::alloc::Global;

/// `ask PUT /site {"server":..}`: what is asked, and for a row that is put how it is shown again,
/// for an import how many rows it has and its digest; or why it is no command.
pub fn ask(alloc: Global, page: &mut Page, line: Line<'_>) -> Result<(), Unread> {
    let mut line = line;
    let method = line.word();
    let path = line.word();
    answer(alloc, page, method, path, line.rest())
}

/// `ask-bytes PUT /site '{"server":' 64* "f"`: the same of a body that is written as bytes.
pub fn ask_bytes(alloc: Global, page: &mut Page, line: Line<'_>) -> Result<(), Unread> {
    let mut line = line;
    let method = line.word();
    let path = line.word();
    let body = line.bytes(alloc)?;
    answer(alloc, page, method, path, body.as_slice())
}

// `_` stands for an empty method or path.
fn meant(word: &[u8]) -> &[u8] {
    if word == b"_".as_slice() { b"" } else { word }
}

fn answer(
    alloc: Global,
    page: &mut Page,
    method: &[u8],
    path: &[u8],
    body: &[u8],
) -> Result<(), Unread> {
    match command_of(alloc, meant(method), meant(path), body) {
        Ok(command) => show_command(alloc, page, command),
        Err(CommandErr::Fault(err)) => show_fault(alloc, page, &Fault::Clerk(err)),
        Err(CommandErr::Memory) => Err(Unread::Memory),
    }
}

fn show_command(alloc: Global, page: &mut Page, command: Command) -> Result<(), Unread>
    requires { IsTrue (is_sound command) }
{
    match command {
        Command::Remove(key) => {
            page.text("remove ")?;
            Ok(show_key(page, &key)?)
        }
        Command::Show(key) => {
            page.text("show ")?;
            Ok(show_key(page, &key)?)
        }
        Command::Import {
            kind,
            batch,
            digest,
            rows,
        } => Ok(show_import(page, kind, batch, &digest, rows.len())?),
        put => show_put(alloc, page, &as_shown(put)),
    }
}

fn show_import(
    page: &mut Page,
    kind: ImportKind,
    batch: u64,
    digest: &[u8],
    rows: usize,
) -> Result<(), NoMemory> {
    page.text(match kind {
        ImportKind::Subscribers => "import subscribers ",
        ImportKind::Modems => "import modems ",
    })?;
    page.number(batch)?;
    page.text(" rows ")?;
    page.number(rows as u64)?;
    page.text(" ")?;
    page.hex(digest)
}

// The row that the command puts, as it is shown; other commands have nothing to show.
fn as_shown(command: Command) -> Reply
    requires { IsTrue (is_sound command) }
{
    match command {
        Command::PutHub(number, site) => Reply::Shown(Key::Hub(number), ShownRow::Site(site)),
        Command::PutSubscriber(number, row) => {
            Reply::Shown(Key::Subscriber(number), ShownRow::Subscriber(row))
        }
        Command::PutAddOn(owner, number, row) => {
            Reply::Shown(Key::AddOn(owner, number), ShownRow::AddOn(row))
        }
        Command::PutModem(mac, row) => Reply::Shown(Key::Modem(mac), ShownRow::Modem(row)),
        Command::PutClass(number, row) => Reply::Shown(Key::Class(number), ShownRow::Class(row)),
        Command::PutPool(pool, row, hub) => Reply::ShownPool { pool, row, hub },
        Command::PutDevicePool(number, row) => {
            Reply::Shown(Key::DevicePool(number), ShownRow::Pool(row))
        }
        _ => Reply::Done,
    }
}

fn show_put(alloc: Global, page: &mut Page, reply: &Reply) -> Result<(), Unread> {
    page.text("put ")?;
    show_shown(page, reply)?;
    page.text("; ")?;
    show_reply(page, reply_json(alloc, reply))
}

// The row that a reply shows.
fn show_shown(page: &mut Page, reply: &Reply) -> Result<(), Unread> {
    match reply {
        Reply::Shown(key, row) => Ok(show_seen(page, key, row)?),
        Reply::ShownPool { pool, row, hub } => Ok(show_seen_pool(page, *pool, row, *hub)?),
        _ => Err(Unread::Words),
    }
}

fn show_reply(page: &mut Page, text: Result<Bytes, NoMemory>) -> Result<(), Unread> {
    Ok(page.raw(text?.as_slice())?)
}

/// `lease 10.64.0.10 bound 02aabbccddee t`: how a lease is shown.
pub fn lease(alloc: Global, page: &mut Page, line: Line<'_>) -> Result<(), Unread> {
    let mut line = line;
    let address = line.address()?;
    let hold = match line.word() {
        b"offered" => Hold::Offered(line.mac()?),
        b"bound" => Hold::Bound(line.mac()?),
        _ => Hold::Declined,
    };
    let lease = Lease {
        hold,
        expiry: line.moment()?,
    };
    let reply = Reply::Shown(Key::Lease(address), ShownRow::Lease(lease));
    show_reply(page, reply_json(alloc, &reply))
}

/// `done`: how a command that was done is told.
pub fn done(alloc: Global, page: &mut Page) -> Result<(), Unread> {
    show_reply(page, reply_json(alloc, &Reply::Done))
}

/// How an import that was done is told, by how many rows it had.
pub fn rows(alloc: Global, page: &mut Page, line: Line<'_>) -> Result<(), Unread> {
    let mut line = line;
    let reply = Reply::Rows(line.count()?);
    show_reply(page, reply_json(alloc, &reply))
}
