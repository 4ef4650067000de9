ghost use Rattle.std.specs.Prelude.{◌≡◌, ℕ, IsTrue, IfOk, MatchResult};
ghost use Rattle.off_defs.specs.State.{held_at_start};
ghost use Rattle.off_orders.specs.declared.orders.Reply.TheVariants.{Rows};
ghost use Rattle.off_orders.specs.Sound.{is_sound};
ghost use Rattle.off_import_job.specs.Importing.{ReadAs, NotTaken, CarriesOut, Ends, Imports};

use crate::telling::tell_end;
use off_accounts::AccountErr;
use off_base::Moment;
use off_defs::ImportKind;
use off_import::{ImportErr, read_import};
use off_jobs::{InputErr, read_input};
use off_office::{Office, StartErr};
use off_orders::{Command, Reply};
use off_outside::{Keeper, Sink, Source};
use std::alloc::Global;

/// How many bytes an import has at most.
const MOST_BYTES: usize = 1_048_576;

/// What became of an import.
#[derive(Clone, Copy, PartialEq, Eq)]
pub enum Ended {
    /// The tables didn't open.
    Closed(StartErr),
    /// The source wasn't read to its end.
    Unread(InputErr),
    /// Its bytes are no import.
    NoImport(ImportErr),
    /// The import wasn't done.
    NotDone(AccountErr),
    /// It was done, and has so many rows.
    Done(u32),
}

/// Does the import that the source holds, under a batch's number, and tells how many rows it has.
///
/// Status 0: it's done, or it was done before. 2: the tables don't open, and the line names their
/// least bad key. 3: the keeper failed. 4: the sink failed. 6: memory was refused. 7: the source
/// failed. 9: the source holds more bytes than an import may have, or they are no import, or a rule
/// refuses it. With 2 the tables are as before; with 7 and 9 they are so, but that the site of
/// earlier days is the hub 0; with 3 and 6 they are the one or the other.
pub fn import_input<K: Keeper, S: Source, W: Sink>(
    alloc: Global,
    kind: ImportKind,
    batch: u64,
    keeper: &mut K,
    source: &mut S,
    out: &mut W,
) -> u8
    ensures { Imports kind batch result (K.seen keeper.old) (K.seen keeper.new)
        (S.seen source.old) (S.seen source.new) (W.seen out.old) (W.seen out.new) }
{
    let ended = import(alloc, kind, batch, keeper, source);
    tell_end(ended, out)
}

// Opens the tables, reads the import and does it.
fn import<K: Keeper, S: Source>(
    alloc: Global,
    kind: ImportKind,
    batch: u64,
    keeper: &mut K,
    source: &mut S,
) -> Ended
    ensures { Ends result kind batch (K.seen keeper.old) (K.seen keeper.new)
        (S.seen source.old) (S.seen source.new) }
{
    match Office::start(alloc, keeper) {
        Ok(mut office) => match read_command(alloc, kind, batch, source) {
            Ok(command) => carry_out(&mut office, keeper, &command),
            Err(ended) => ended,
        },
        Err(err) => Ended::Closed(err),
    }
}

// The import that the source holds.
fn read_command<S: Source>(
    alloc: Global,
    kind: ImportKind,
    batch: u64,
    source: &mut S,
) -> Result<Command, Ended>
    ensures read { MatchResult result
        (λ command. ReadAs kind batch command (S.seen source.old) (S.seen source.new))
        (λ ended. NotTaken ended kind batch (S.seen source.old) (S.seen source.new)) }
    ensures sound { IfOk result (λ command. IsTrue (is_sound command)) }
{
    match read_input(alloc, MOST_BYTES, source) {
        Ok(bytes) => match read_import(alloc, kind, batch, bytes.as_slice()) {
            Ok(command) => Ok(command),
            Err(err) => Err(Ended::NoImport(err)),
        },
        Err(err) => Err(Ended::Unread(err)),
    }
}

// Has an office that has just begun do a command.
fn carry_out<K: Keeper>(office: &mut Office, keeper: &mut K, command: &Command) -> Ended
    requires sound { IsTrue (is_sound command.now) }
    requires fresh { office.old.held ≡ held_at_start }
    ensures { CarriesOut result command.now office.old (K.seen keeper.old) (K.seen keeper.new) }
{
    match office.command(keeper, Moment(0), command) {
        Ok(reply) => Ended::Done(rows_in(&reply)),
        Err(err) => Ended::NotDone(err),
    }
}

// How many rows an import has, by what is answered.
fn rows_in(reply: &Reply) -> u32
    ensures { (rows : ℕ) → reply.now ≡ Rows rows → result ≡ rows }
{
    match reply {
        Reply::Rows(rows) => *rows,
        _ => 0,
    }
}
