ghost use Rattle.std.specs.Prelude.{◌≡◌, true, IfOk};
ghost use Rattle.std.specs.Ordering.{is_lt};
ghost use Rattle.off_defs.specs.declared.tables.Row.{Row};
ghost use Rattle.off_defs.specs.Keys.{key_cmp};
ghost use Rattle.off_defs.specs.State.{Tables};
ghost use Rattle.off_defs.specs.Tables.{is_after, next_entry};
ghost use Rattle.off_outside.specs.KeeperCalls.{Looks, WasCounted};
ghost use Rattle.off_readers.specs.Walks.{IsAKey, IsBehind, IfBehind};

use off_defs::{Key, Row};
use off_outside::{KeepErr, Keeper};
use std::alloc::Global;
use std::cmp::Ordering;

/// The next entry behind a place, as the keeper gives it, or `None` where there is none. It's one
/// call.
///
/// A keeper that tells nothing may give an entry that doesn't lie behind the place. It's taken as
/// none, so each walk ends: the room behind the place falls.
#[tactic(auto, using(off_outside::proofs::KeeperLemmas::reads_as))]
pub fn next_behind<K: Keeper>(
    alloc: Global,
    keeper: &mut K,
    place: Option<Key>,
) -> Result<Option<(Key, Row)>, KeepErr>
    ensures told { Looks result (K.seen keeper.old) (K.seen keeper.new)
        (λ entry t. entry ≡ next_entry place t) }
    ensures rises { IfOk result (IfBehind place) }
    ensures counted { WasCounted (K.seen keeper.old) (K.seen keeper.new) }
{
    let entry = keeper.next(alloc, place.as_ref())?;
    Ok(if_behind(place, entry))
}

// The entry, where it lies behind the place.
#[tactic(auto, using(crate::proofs::StepLemmas::next_fits))]
fn if_behind(place: Option<Key>, entry: Option<(Key, Row)>) -> Option<(Key, Row)>
    ensures kept { (t : Tables) → entry ≡ next_entry place t → result ≡ next_entry place t }
    ensures rises { IfBehind place result }
{
    let Some((key, row)) = entry else {
        return None;
    };
    if !is_behind(place, key) {
        return None;
    }
    Some((key, row))
}

// Whether an entry of the key lies behind the place.
fn is_behind(place: Option<Key>, key: Key) -> bool
    ensures after { (row : Row) → result ≡ is_after place (key, row) }
    ensures less { (row : Row) → result ≡ true → IsBehind place (key, row) }
{
    match place {
        None => true,
        Some(before) => is_above(before, key),
    }
}

fn is_above(before: Key, key: Key) -> bool
    ensures above { result ≡ is_lt (key_cmp before key) }
    ensures lower { IsAKey before }
    ensures higher { IsAKey key }
{
    before.cmp(&key) == Ordering::Less
}
