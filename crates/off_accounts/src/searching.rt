ghost use Rattle.std.specs.Prelude.{◌≡◌, false};
ghost use Rattle.off_defs.specs.declared.keys.Key.{Key};
ghost use Rattle.off_defs.specs.declared.tables.Row.{Row};
ghost use Rattle.off_defs.specs.Tables.{is_after};
ghost use Rattle.off_outside.specs.KeeperCalls.{Looks};
ghost use Rattle.off_rows.specs.KeyBytes.{IsRanged};
ghost use Rattle.off_accounts.specs.Searches.{is_wanted, least_wanted};
ghost use Rattle.off_accounts.specs.Walking.{WalksOver, AllBehind, looks_at, is_reached, is_passed};

use crate::lost::{Lost, before_lost, is_past_lost};
use crate::wanted::is_wanted;
use crate::whose::{Whose, before_pools, is_past_pools};
use off_base::Moment;
use off_defs::{Key, Pool};
use off_outside::{KeepErr, Keeper};
use off_readers::next_behind;
use std::alloc::Global;

/// What is looked for: the least key of such a row.
#[derive(Clone, Copy, PartialEq, Eq)]
pub enum Sought {
    /// A pool which has an address of this one, another than that of the number, if there is one.
    Overlapping(Whose, Option<u32>, Pool),
    /// Another pool than that of the number, which has the relay of this one.
    WithRelay(Whose, u32, Pool),
    /// A lease that is lost before it has expired.
    LiveLost(Moment, Lost),
}

/// The least key of a row that is sought, or `None` where there is none. It walks over the rows of
/// one kind.
#[tactic(auto, using(crate::proofs::WalkedLemmas::walk_ends))]
pub(crate) fn search<K: Keeper>(
    alloc: Global,
    keeper: &mut K,
    sought: &Sought,
) -> Result<Option<Key>, KeepErr>
    ensures told { Looks result (K.seen keeper.old) (K.seen keeper.new)
        (λ found t. found ≡ least_wanted sought.now t) }
    ensures walks { WalksOver (looks_at sought.now) (K.seen keeper.old) (K.seen keeper.new) }
{
    let mut place = before(sought);
    'walk: loop {
        let Some((key, row)) = next_behind(alloc, keeper, Some(place))? else {
            return Ok(None);
        };
        if is_past(sought, key) {
            return Ok(None);
        }
        if is_wanted(sought, &key, &row) {
            return Ok(Some(key));
        }
        place = key;
    }
}

// The place from which a walk finds all that is sought.
fn before(sought: &Sought) -> Key
    ensures none { (entry : Key × Row) → is_after (Some result) entry ≡ false
        → is_wanted sought.now entry ≡ false }
    ensures begins { AllBehind (is_reached sought.now) result }
{
    match sought {
        Sought::Overlapping(whose, _, _) => before_pools(*whose),
        Sought::WithRelay(whose, _, _) => before_pools(*whose),
        Sought::LiveLost(_, lost) => before_lost(lost),
    }
}

// Whether the walk has passed by all that is sought.
fn is_past(sought: &Sought, key: Key) -> bool
    ensures passed { result ≡ is_passed sought.now key }
    ensures ranged { IsRanged key }
{
    match sought {
        Sought::Overlapping(whose, _, _) => is_past_pools(*whose, &key),
        Sought::WithRelay(whose, _, _) => is_past_pools(*whose, &key),
        Sought::LiveLost(_, lost) => is_past_lost(lost, key),
    }
}
