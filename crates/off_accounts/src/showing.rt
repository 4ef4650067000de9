//! What a clerk is shown. It changes nothing.

ghost use Rattle.std.specs.Prelude.{◌≡◌, false, Some, IfOk};
ghost use Rattle.off_defs.specs.declared.keys.Key.TheVariants as key;
ghost use Rattle.off_orders.specs.declared.orders.Command.TheVariants.{Show};
ghost use Rattle.off_outside.specs.KeeperCalls.{Looks, Spent};
ghost use Rattle.off_accounts.specs.Deciding.{IsRuling, AnswersCommand, calls_to_show};
ghost use Rattle.off_accounts.specs.Walking.{is_of_pool};

use crate::results::Planned;
use crate::subject::as_pool;
use crate::whose::{Whose, pool_number};
use off_account_rules::Counts;
use off_base::Moment;
use off_defs::{Key, Writes};
use off_orders::{Reply, Rule, ShownRow};
use off_outside::{KeepErr, Keeper};
use off_readers::{read_pool_hub, read_row};
use off_users::Users;
use std::alloc::Global;

/// The row of a key, or the rule that there is none.
pub(crate) fn show<K: Keeper>(
    alloc: Global,
    keeper: &mut K,
    counts: &Counts,
    users: &Users,
    now: Moment,
    key: &Key,
) -> Result<Result<Planned, Rule>, KeepErr>
    ensures told { Looks result (K.seen keeper.old) (K.seen keeper.new)
        (λ verdict t. IsRuling counts.now users.now now.0 (Show key.now) t verdict) }
    ensures answers { IfOk result (λ verdict. IfOk verdict (λ planned.
        AnswersCommand (Show key.now) planned)) }
    ensures spent { Spent (calls_to_show key.now) (K.seen keeper.old) (K.seen keeper.new) }
{
    match pool_number(Whose::Modems, *key) {
        Some(n) => show_pool(alloc, keeper, counts, users, now, n),
        None => show_other(alloc, keeper, counts, users, now, key),
    }
}

// A pool is shown with the number of its hub.
#[tactic(auto, using(off_readers::proofs::ReadRules::counted_chain))]
fn show_pool<K: Keeper>(
    alloc: Global,
    keeper: &mut K,
    counts: &Counts,
    users: &Users,
    now: Moment,
    n: u32,
) -> Result<Result<Planned, Rule>, KeepErr>
    ensures told { Looks result (K.seen keeper.old) (K.seen keeper.new)
        (λ verdict t. IsRuling counts.now users.now now.0 (Show (key.Pool n)) t verdict) }
    ensures answers { IfOk result (λ verdict. IfOk verdict (λ planned.
        AnswersCommand (Show (key.Pool n)) planned)) }
    ensures spent { Spent 2 (K.seen keeper.old) (K.seen keeper.new) }
{
    let held = read_row(alloc, keeper, &Key::Pool(n))?;
    let Some(pool) = as_pool(&held) else {
        return Ok(Err(Rule::NoRow));
    };
    let hub = read_pool_hub(alloc, keeper, n)?;
    Ok(Ok(Planned {
        writes: Writes::new(alloc),
        reply: Reply::ShownPool {
            pool: n,
            row: pool,
            hub,
        },
        counts: *counts,
    }))
}

#[tactic(auto, using(off_outside::proofs::KeeperLemmas::spent_one))]
fn show_other<K: Keeper>(
    alloc: Global,
    keeper: &mut K,
    counts: &Counts,
    users: &Users,
    now: Moment,
    key: &Key,
) -> Result<Result<Planned, Rule>, KeepErr>
    requires other { is_of_pool key.now ≡ false }
    ensures told { Looks result (K.seen keeper.old) (K.seen keeper.new)
        (λ verdict t. IsRuling counts.now users.now now.0 (Show key.now) t verdict) }
    ensures answers { IfOk result (λ verdict. IfOk verdict (λ planned.
        AnswersCommand (Show key.now) planned)) }
    ensures spent { Spent 1 (K.seen keeper.old) (K.seen keeper.new) }
{
    let Some(row) = read_row(alloc, keeper, key)? else {
        return Ok(Err(Rule::NoRow));
    };
    let Some(row) = ShownRow::of(row) else {
        return Ok(Err(Rule::NoRow));
    };
    Ok(Ok(Planned {
        writes: Writes::new(alloc),
        reply: Reply::Shown(*key, row),
        counts: *counts,
    }))
}
