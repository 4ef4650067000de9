ghost use Rattle.std.specs.Prelude.{◌≡◌, false};
ghost use Rattle.off_accounts.specs.Deciding.{is_import};

use crate::counting::{keeper_of, show_counts};
use crate::faults::show_fault;
use off_accounts::{AccountErr, Planned};
use off_base::{Moment, NoMemory};
use off_clerk::Fault;
use off_commands::decide;
use off_defs::Write;
use off_keepmem::MemKeeper;
use off_opening::{count_rows, read_users};
use off_orders::{Command, Reply, sound};
use script_words::{
    Line, Page, Unread, read_command, show_key, show_row, show_seen, show_seen_pool,
};
use std::alloc::Global;

/// `decide t remove pool 1; ROW; ROW`: what is to be written at a command over these rows, what is
/// then answered, and how many rows there are behind it; or the rule that is broken.
pub fn show_decision(alloc: Global, page: &mut Page, line: Line<'_>) -> Result<(), Unread> {
    let mut line = line;
    let now = line.moment()?;
    let (asked, rows) = cut(line.rest());
    let command = read_command(alloc, &mut Line::over(asked))?;
    let planned = planned_over(alloc, now, &command, rows)?;
    match planned {
        Ok(planned) => Ok(show_planned(page, &planned)?),
        Err(AccountErr::Refused { row, rule }) => {
            show_fault(alloc, page, &Fault::Rule { row, rule })
        }
        Err(_failed) => Err(Unread::Memory),
    }
}

// The texts before and behind the first semicolon.
fn cut(text: &[u8]) -> (&[u8], &[u8]) {
    let end = text
        .iter()
        .position(|byte| *byte == b';')
        .unwrap_or(text.len());
    (
        text.get(..end).unwrap_or(text),
        text.get(end.saturating_add(1)..).unwrap_or(b""),
    )
}

fn planned_over(
    alloc: Global,
    now: Moment,
    command: &Command,
    rows: &[u8],
) -> Result<Result<Planned, AccountErr>, Unread> {
    let mut keeper = keeper_of(alloc, rows)?;
    if is_import(command) {
        return Err(Unread::Words);
    }
    Ok(planned_by(alloc, &mut keeper, now, command))
}

fn is_import(command: &Command) -> bool
    ensures { result ≡ is_import command.now }
{
    matches!(command, Command::Import { .. })
}

fn planned_by(
    alloc: Global,
    keeper: &mut MemKeeper,
    now: Moment,
    command: &Command,
) -> Result<Planned, AccountErr>
    requires { is_import command.now ≡ false }
{
    if !sound(command) {
        return Err(AccountErr::Failed);
    }
    let counts = count_rows(alloc, keeper)?;
    let users = read_users(alloc, keeper)?;
    decide(alloc, keeper, &counts, &users, now, command)
}

fn show_planned(page: &mut Page, planned: &Planned) -> Result<(), NoMemory> {
    for place in 0..planned.writes.len() {
        show_write(page, planned.writes.get(place))?;
        page.text("; ")?;
    }
    show_answer(page, &planned.reply)?;
    page.text("; ")?;
    show_counts(page, &planned.counts)
}

fn show_write(page: &mut Page, write: &Write) -> Result<(), NoMemory> {
    match write {
        Write::Put(key, row) => {
            page.text("put ")?;
            show_row(page, key, row)
        }
        Write::Drop(key) => {
            page.text("drop ")?;
            show_key(page, key)
        }
    }
}

fn show_answer(page: &mut Page, reply: &Reply) -> Result<(), NoMemory> {
    match reply {
        Reply::Done => page.text("done"),
        Reply::Shown(key, row) => {
            page.text("shown ")?;
            show_seen(page, key, row)
        }
        Reply::ShownPool { pool, row, hub } => {
            page.text("shown ")?;
            show_seen_pool(page, *pool, row, *hub)
        }
        Reply::Rows(count) => page.number(u64::from(*count)),
    }
}
