ghost use Rattle.std.specs.Prelude.{◌≡◌, is_some, IfOk, IfSome, IsTrue};
ghost use Rattle.off_account_rules.specs.Rows.{seen_at, possible, is_possible};
ghost use Rattle.off_outside.specs.KeeperCalls.{Looks, WasCounted};

use crate::possible::is_possible;
use off_defs::{Key, Row};
use off_outside::{KeepErr, Keeper};
use std::alloc::Global;

/// The row of a key, or `None` where it has none. An impossible row is taken as none. It's one
/// call.
#[tactic(auto, using(off_outside::proofs::KeeperLemmas::reads_as))]
pub fn read_row<K: Keeper>(alloc: Global, keeper: &mut K, key: &Key) -> Result<Option<Row>, KeepErr>
    ensures told { Looks result (K.seen keeper.old) (K.seen keeper.new)
        (λ row t. row ≡ seen_at t key.now) }
    ensures possible { IfOk result (λ row. IfSome row (λ held. IsTrue (is_possible key.now held))) }
    ensures counted { WasCounted (K.seen keeper.old) (K.seen keeper.new) }
{
    Ok(only_possible(key, keeper.get(alloc, key)?))
}

/// Whether a key has a row. An impossible row is taken as none. It's one call.
pub fn has_row<K: Keeper>(alloc: Global, keeper: &mut K, key: &Key) -> Result<bool, KeepErr>
    ensures told { Looks result (K.seen keeper.old) (K.seen keeper.new)
        (λ there t. there ≡ is_some (seen_at t key.now)) }
    ensures counted { WasCounted (K.seen keeper.old) (K.seen keeper.new) }
{
    Ok(read_row(alloc, keeper, key)?.is_some())
}

// A row that is possible at its key, or `None`.
fn only_possible(key: &Key, row: Option<Row>) -> Option<Row>
    ensures seen { result ≡ possible key.now row }
    ensures possible { IfSome result (λ held. IsTrue (is_possible key.now held)) }
{
    let Some(row) = row else { return None };
    if is_possible(key, &row) {
        Some(row)
    } else {
        None
    }
}
