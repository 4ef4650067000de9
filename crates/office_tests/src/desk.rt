ghost use Rattle.std.specs.Prelude.{◌≡◌, false, IfOk, IfSome};
ghost use Rattle.off_accounts.specs.Deciding.{is_import};

use off_account_rules::Counts;
use off_accounts::{AccountErr, Planned};
use off_base::Moment;
use off_commands::decide;
use off_defs::{Key, Row, Write, Writes};
use off_keepmem::MemKeeper;
use off_opening::read_users;
use off_orders::{Command, Reply, Rule, sound};
use off_outside::{Calls, Keeper};
use script_words::{Line, Unread, read_write};
use std::alloc::Global;
use std::test::Fail;

/// The moment of the commands.
pub(crate) const NOW: u64 = 1_700_000_000;

/// The office of the worked examples, a row a line.
pub(crate) const OFFICE: &str = "hub 0 10.0.0.2 736563726574 3600 86400 0.0.0.0
class 1 \"gold\" 24{ 1=0001 6=07 } 25{ 1=0002 6=07 }
subscriber 7 active 2 \"Ann\"
modem 02aabbccddee 7 1 \"SN01\"
pool 1 10.64.0.10 10.64.0.99 24 10.64.0.1 10.64.0.1";

/// What a command is answered: with how many writes it is done, that it shows a row, or the rule
/// that refuses it.
#[derive(Clone, Copy, PartialEq, Eq)]
pub(crate) enum Answer {
    Done(usize),
    Shown,
    Refused(Rule),
    Failed,
}

fn push_rows(alloc: Global, writes: &mut Writes, rows: &str) -> Result<(), Fail> {
    for row in rows.split('\n') {
        if !row.is_empty() {
            writes.push(read_write(alloc, &mut Line::over(row.as_bytes()))?)?;
        }
    }
    Ok(())
}

/// A keeper of the office and further rows.
pub(crate) fn keeper_of(alloc: Global, more: &str) -> Result<MemKeeper, Fail> {
    let mut writes = Writes::new(alloc);
    push_rows(alloc, &mut writes, OFFICE)?;
    push_rows(alloc, &mut writes, more)?;
    let mut keeper = MemKeeper::new(alloc, Calls::new(alloc));
    keeper.commit(alloc, &writes)?;
    Ok(keeper)
}

fn command_of(key: Key, row: Row) -> Option<Command>
    ensures { IfSome result (λ c. is_import c ≡ false) }
{
    match (key, row) {
        (Key::Subscriber(number), Row::Subscriber(row)) => {
            Some(Command::PutSubscriber(number, row))
        }
        (Key::AddOn(owner, number), Row::AddOn(row)) => Some(Command::PutAddOn(owner, number, row)),
        (Key::Modem(mac), Row::Modem(row)) => Some(Command::PutModem(mac, row)),
        (Key::Class(number), Row::Class(row)) => Some(Command::PutClass(number, row)),
        (Key::Pool(number), Row::Pool(row)) => Some(Command::PutPool(number, row, 0)),
        (Key::DevicePool(number), Row::Pool(row)) => Some(Command::PutDevicePool(number, row)),
        _ => None,
    }
}

/// Whether the command is an import.
pub(crate) fn is_import(command: &Command) -> bool
    ensures { result ≡ is_import command.now }
{
    match command {
        Command::Import { .. } => true,
        _ => false,
    }
}

/// The command that puts a row; a pool's hub is the hub 0.
pub(crate) fn put(alloc: Global, row: &str) -> Result<Option<Command>, Unread>
    ensures { IfOk result (λ asked. IfSome asked (λ c. is_import c ≡ false)) }
{
    match read_write(alloc, &mut Line::over(row.as_bytes()))? {
        Write::Put(key, row) => Ok(command_of(key, row)),
        Write::Drop(_key) => Ok(None),
    }
}

fn answer_of(planned: &Result<Planned, AccountErr>) -> Answer {
    match planned {
        Ok(planned) => match planned.reply {
            Reply::Shown(_, _) => Answer::Shown,
            Reply::ShownPool { .. } => Answer::Shown,
            _ => Answer::Done(planned.writes.len()),
        },
        Err(AccountErr::Refused { rule, .. }) => Answer::Refused(*rule),
        Err(_) => Answer::Failed,
    }
}

/// What a command is answered where the counts are these. It isn't done.
pub(crate) fn answered(
    alloc: Global,
    keeper: &mut MemKeeper,
    counts: &Counts,
    command: &Command,
) -> Answer
    requires { is_import command.now ≡ false }
{
    if !sound(command) {
        return Answer::Failed;
    }
    let Ok(users) = read_users(alloc, keeper) else {
        return Answer::Failed;
    };
    answer_of(&decide(alloc, keeper, counts, &users, Moment(NOW), command))
}

/// What the command that puts a row is answered.
pub(crate) fn answers(
    alloc: Global,
    keeper: &mut MemKeeper,
    counts: &Counts,
    row: &str,
) -> Result<Answer, Fail> {
    match put(alloc, row)? {
        Some(command) => Ok(answered(alloc, keeper, counts, &command)),
        None => Ok(Answer::Failed),
    }
}
