//! The rules of one row of an import, over the tables that the rows before it left.

ghost use Rattle.std.specs.Prelude.{◌≡◌, true, is_some, IfOk};
ghost use Rattle.off_defs.specs.Tables.{write_all};
ghost use Rattle.off_orders.specs.declared.orders.ImportRow.TheVariants as imported;
ghost use Rattle.off_account_rules.specs.Rows.{seen_at, counts_of};
ghost use Rattle.off_outside.specs.KeeperCalls.{Looks, Spent};
ghost use Rattle.off_commands.specs.Imports.{Shows, IsJudged, is_sound_row, was_put};

use crate::import_counting::count_put;
use crate::progress::{Progress, was_put};
use off_account_rules::Counts;
use off_base::Mac;
use off_defs::{Key, Kind, Modem};
use off_orders::{ImportRow, Rule};
use off_outside::{KeepErr, Keeper};
use off_readers::has_row;
use std::alloc::Global;

/// The counts behind the row, or the first of its rules that is broken. It's three calls at most.
pub(crate) fn judge<K: Keeper>(
    alloc: Global,
    keeper: &mut K,
    so_far: &Progress,
    row: &ImportRow,
) -> Result<Result<Counts, Rule>, KeepErr>
    requires shows { Shows so_far.now }
    requires sound { is_sound_row row.now ≡ true }
    ensures told { Looks result (K.seen keeper.old) (K.seen keeper.new) (λ verdict t.
        so_far.now.counts ≡ counts_of (write_all t so_far.now.writes)
        → IsJudged (write_all t so_far.now.writes) row.now verdict) }
    ensures batches { IfOk result (λ verdict. IfOk verdict
        (λ after. after.batches ≡ so_far.now.counts.batches)) }
    ensures spent { Spent 3 (K.seen keeper.old) (K.seen keeper.new) }
{
    match row {
        ImportRow::Subscriber(n, _) => {
            let is_there = is_there(alloc, keeper, so_far, &Key::Subscriber(*n))?;
            Ok(count_put(&so_far.counts, Kind::Subscribers, is_there))
        }
        ImportRow::Modem(mac, modem) => judge_modem(alloc, keeper, so_far, *mac, modem),
    }
}

fn judge_modem<K: Keeper>(
    alloc: Global,
    keeper: &mut K,
    so_far: &Progress,
    mac: Mac,
    modem: &Modem,
) -> Result<Result<Counts, Rule>, KeepErr>
    requires { Shows so_far.now }
    ensures told { Looks result (K.seen keeper.old) (K.seen keeper.new) (λ verdict t.
        so_far.now.counts ≡ counts_of (write_all t so_far.now.writes)
        → IsJudged (write_all t so_far.now.writes) (imported.Modem mac modem.now) verdict) }
    ensures batches { IfOk result (λ verdict. IfOk verdict
        (λ after. after.batches ≡ so_far.now.counts.batches)) }
    ensures spent { Spent 3 (K.seen keeper.old) (K.seen keeper.new) }
{
    let has_subscriber = is_there(alloc, keeper, so_far, &Key::Subscriber(modem.subscriber))?;
    if !has_subscriber {
        return Ok(Err(Rule::NoSubscriber));
    }
    let has_class = is_there(alloc, keeper, so_far, &Key::Class(modem.class))?;
    if !has_class {
        return Ok(Err(Rule::NoClass));
    }
    let is_known = is_there(alloc, keeper, so_far, &Key::Modem(mac))?;
    Ok(count_put(&so_far.counts, Kind::Modems, is_known))
}

// Whether the key has a row behind the rows so far. It's one call at most, and none where they put
// the key.
fn is_there<K: Keeper>(
    alloc: Global,
    keeper: &mut K,
    so_far: &Progress,
    key: &Key,
) -> Result<bool, KeepErr>
    requires { Shows so_far.now }
    ensures told { Looks result (K.seen keeper.old) (K.seen keeper.new)
        (λ there t. there ≡ is_some (seen_at (write_all t so_far.now.writes) key.now)) }
    ensures spent { Spent 1 (K.seen keeper.old) (K.seen keeper.new) }
    ensures own { was_put so_far.now.keys key.now ≡ true
        → Spent 0 (K.seen keeper.old) (K.seen keeper.new) }
{
    if was_put(&so_far.keys, key) {
        return Ok(true);
    }
    has_row(alloc, keeper, key)
}
