ghost use Rattle.std.specs.Prelude.{◌≡◌, false, IsTrue, MatchResult, IfOk, IfSome};
ghost use Rattle.off_orders.specs.declared.orders.Reply.TheVariants.{Done};
ghost use Rattle.off_orders.specs.Sound.{is_sound};
ghost use Rattle.off_account_rules.specs.Rows.{counts_of};
ghost use Rattle.off_users.specs.Users.{StandsFor};
ghost use Rattle.off_outside.specs.KeeperCalls.{Looks, Reads, Spent};
ghost use Rattle.off_accounts.specs.Deciding.{is_import, most_calls, IsByRules, IsRuling};
ghost use Rattle.off_accounts.specs.Deciding.{IsDecided, NotDecided, AnswersCommand, clerk_answer};
ghost use Rattle.off_accounts.specs.Walking.{WalksWithin};

use crate::counting::counts_after;
use crate::planning::writes_for;
use crate::results::{AccountErr, Asked, Planned};
use crate::ruling::tests_of;
use crate::showing::show;
use crate::subject::subject_of;
use crate::testing::first_broken;
use off_account_rules::Counts;
use off_base::Moment;
use off_orders::{Command, Reply, Rule};
use off_outside::{KeepErr, Keeper};
use off_users::Users;
use std::alloc::Global;

/// What a clerk's command is to do, by the rules of its kind in their order, or the first rule that
/// is broken. It writes nothing.
///
/// The counts that are handed in are those of the tables, and so is who uses what; the counts of
/// the plan are what they are once its writes are done. The tables needn't be good. `Failed` comes
/// only where the keeper counted a fault.
///
/// A command that needs no walk over pools or leases makes nine calls of the keeper at most, and
/// three where it doesn't remove a subscriber. One that puts a pool of modems goes over those pools
/// twice at most, and once over those for devices; one that puts a pool for devices the other way
/// round. One that removes a pool, or puts one where another was, goes over the leases in the range
/// of the pool that was there twice at most. One that removes a hub goes over the pools once, and
/// looks up the hub of each. How many calls that makes is known over tables that are told.
pub fn decide_single<K: Keeper>(
    alloc: Global,
    keeper: &mut K,
    counts: &Counts,
    users: &Users,
    now: Moment,
    c: &Command,
) -> Result<Planned, AccountErr>
    requires sound { IsTrue (is_sound c.now) }
    requires not_import { is_import c.now ≡ false }
    ensures told { MatchResult result
        (λ planned. Reads (λ t. counts.now ≡ counts_of t → StandsFor users.now t
        → IsDecided counts.now now.0 c.now planned t) (K.seen keeper.old) (K.seen keeper.new))
        (λ err. NotDecided counts.now users.now now.0 c.now err
        (K.seen keeper.old) (K.seen keeper.new)) }
    ensures answers { IfOk result (λ planned. AnswersCommand c.now planned) }
    ensures spent { IfSome (most_calls c.now)
        (λ n. Spent n (K.seen keeper.old) (K.seen keeper.new)) }
    ensures walks { WalksWithin c.now (K.seen keeper.old) (K.seen keeper.new) }
{
    let verdict = verdict_on(alloc, keeper, counts, users, now, c);
    clerk_answer(verdict)
}

// What is planned, or the rule that is broken.
#[tactic(auto, using(crate::proofs::CommandWalks::show_walks))]
fn verdict_on<K: Keeper>(
    alloc: Global,
    keeper: &mut K,
    counts: &Counts,
    users: &Users,
    now: Moment,
    c: &Command,
) -> Result<Result<Planned, Rule>, KeepErr>
    requires sound { IsTrue (is_sound c.now) }
    requires not_import { is_import c.now ≡ false }
    ensures told { Looks result (K.seen keeper.old) (K.seen keeper.new)
        (λ verdict t. IsRuling counts.now users.now now.0 c.now t verdict) }
    ensures answers { IfOk result (λ verdict. IfOk verdict
        (λ planned. AnswersCommand c.now planned)) }
    ensures spent { IfSome (most_calls c.now)
        (λ n. Spent n (K.seen keeper.old) (K.seen keeper.new)) }
    ensures walks { WalksWithin c.now (K.seen keeper.old) (K.seen keeper.new) }
{
    if let Command::Show(key) = c {
        return show(alloc, keeper, counts, users, now, key);
    }
    let asked = Asked {
        counts: *counts,
        at: now,
    };
    change(alloc, keeper, &asked, users, c)
}

fn clerk_answer(verdict: Result<Result<Planned, Rule>, KeepErr>) -> Result<Planned, AccountErr>
    ensures { result ≡ clerk_answer verdict }
{
    match verdict? {
        Ok(planned) => Ok(planned),
        Err(rule) => Err(AccountErr::Refused { row: 0, rule }),
    }
}

// A command that changes the tables: its rules are tested, and then it's planned.
#[tactic(auto, using(crate::proofs::CommandWalks::first_walks))]
fn change<K: Keeper>(
    alloc: Global,
    keeper: &mut K,
    asked: &Asked,
    users: &Users,
    c: &Command,
) -> Result<Result<Planned, Rule>, KeepErr>
    requires sound { IsTrue (is_sound c.now) }
    requires changes { IsByRules c.now }
    ensures told { Looks result (K.seen keeper.old) (K.seen keeper.new)
        (λ verdict t. IsRuling asked.now.counts users.now asked.now.at.0 c.now t verdict) }
    ensures answers { IfOk result (λ verdict. IfOk verdict (λ planned. planned.reply ≡ Done)) }
    ensures spent { IfSome (most_calls c.now)
        (λ n. Spent n (K.seen keeper.old) (K.seen keeper.new)) }
    ensures walks { WalksWithin c.now (K.seen keeper.old) (K.seen keeper.new) }
{
    let subject = subject_of(alloc, keeper, users, c)?;
    let tests = tests_of(asked, &subject, c);
    if let Some(rule) = first_broken(alloc, keeper, &tests)? {
        return Ok(Err(rule));
    }
    let writes = writes_for(alloc, keeper, &subject, c)?;
    let counts = counts_after(alloc, keeper, &asked.counts, &subject, c)?;
    Ok(Ok(Planned {
        writes,
        reply: Reply::Done,
        counts,
    }))
}
