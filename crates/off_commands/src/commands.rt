ghost use Rattle.std.specs.Prelude.{◌≡◌, IsTrue, MatchResult, IfOk, IfSome};
ghost use Rattle.off_orders.specs.Sound.{is_sound};
ghost use Rattle.off_account_rules.specs.Rows.{counts_of};
ghost use Rattle.off_users.specs.Users.{StandsFor};
ghost use Rattle.off_outside.specs.KeeperCalls.{Reads, Spent};
ghost use Rattle.off_accounts.specs.Deciding.{most_calls, IsDecided, NotDecided, AnswersCommand};
ghost use Rattle.off_commands.specs.Commands.{AnswersImport, KeepsGood};
ghost use Rattle.off_commands.specs.Commands.{most_import_calls};
ghost use Rattle.off_commands.specs.Imports.{import_answer};
ghost use Rattle.off_accounts.specs.Walking.{WalksWithin};

use crate::importing::import;
use crate::putting::Refused;
use off_account_rules::Counts;
use off_accounts::{AccountErr, Planned, decide_single};
use off_base::Moment;
use off_defs::Batch;
use off_orders::Command;
use off_outside::{KeepErr, Keeper};
use off_users::Users;
use std::alloc::Global;

/// What a clerk's command is to do, by the rules of its kind in their order, or the first rule that
/// is broken. It writes nothing.
///
/// The counts that are handed in are those of the tables, and so is who uses what; the counts of
/// the plan are what they are once its writes are done. The tables needn't be good. `Failed` comes
/// only where the keeper counted a fault.
///
/// A command that needs no walk over pools or leases makes nine calls of the keeper at most, and
/// three where it doesn't remove a subscriber; an import makes three for each of its rows and one
/// more. One that puts a pool of modems goes over those pools twice at most, and once over those
/// for devices; one that puts a pool for devices the other way round. One that removes a pool, or
/// puts one where another was, goes over the leases in the range of the pool that was there twice
/// at most. One that removes a hub goes over the pools once, and looks up the hub of each. How many
/// calls that makes is known over tables that are told.
pub fn decide<K: Keeper>(
    alloc: Global,
    keeper: &mut K,
    counts: &Counts,
    users: &Users,
    now: Moment,
    c: &Command,
) -> Result<Planned, AccountErr>
    requires sound { IsTrue (is_sound c.now) }
    ensures told { MatchResult result
        (λ planned. Reads (λ t. counts.now ≡ counts_of t → StandsFor users.now t
        → IsDecided counts.now now.0 c.now planned t) (K.seen keeper.old) (K.seen keeper.new))
        (λ err. NotDecided counts.now users.now now.0 c.now err
        (K.seen keeper.old) (K.seen keeper.new)) }
    ensures answers { IfOk result (λ planned. AnswersCommand c.now planned) }
    ensures rows { IfOk result (λ planned. AnswersImport c.now planned) }
    ensures good { IfOk result (λ planned. KeepsGood counts.now users.now c.now planned
        (K.seen keeper.old)) }
    ensures spent { IfSome (most_calls c.now)
        (λ n. Spent n (K.seen keeper.old) (K.seen keeper.new)) }
    ensures walks { WalksWithin c.now (K.seen keeper.old) (K.seen keeper.new) }
    ensures importing { IfSome (most_import_calls c.now)
        (λ n. Spent n (K.seen keeper.old) (K.seen keeper.new)) }
{
    let Command::Import {
        kind,
        batch,
        digest,
        rows,
    } = c
    else {
        return decide_single(alloc, keeper, counts, users, now, c);
    };
    let kept = Batch {
        kind: *kind,
        digest: *digest,
        rows: rows.len() as u32,
    };
    let verdict = import(alloc, keeper, counts, *batch, &kept, rows);
    import_answer(verdict)
}

fn import_answer(verdict: Result<Result<Planned, Refused>, KeepErr>) -> Result<Planned, AccountErr>
    ensures { result ≡ import_answer verdict }
{
    match verdict? {
        Ok(planned) => Ok(planned),
        Err(refused) => Err(AccountErr::Refused {
            row: refused.row,
            rule: refused.rule,
        }),
    }
}
