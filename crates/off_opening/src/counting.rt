ghost use Rattle.std.specs.Prelude.{◌≡◌, ◌&&◌, count_by};
ghost use Rattle.off_defs.specs.State.{Tables};
ghost use Rattle.off_outside.specs.KeeperCalls.{Looks, WalksOnce};
ghost use Rattle.off_account_rules.specs.Rows.{counts_of, is_of_kind};
ghost use Rattle.off_opening.specs.Marks.{marks_of, is_marked};

use crate::marks::{Mark, read_marks};
use off_account_rules::Counts;
use off_defs::{Key, Kind};
use off_outside::{KeepErr, Keeper};
use std::alloc::Global;

/// How many possible rows there are of each kind of which there may be only so many. It changes
/// nothing.
///
/// Batches past the greatest `u64` count as that one. An error is that of `open_tables`.
#[tactic(auto, using(off_outside::proofs::KeeperLemmas::reads_as))]
pub fn count_rows<K: Keeper>(alloc: Global, keeper: &mut K) -> Result<Counts, KeepErr>
    ensures told { Looks result (K.seen keeper.old) (K.seen keeper.new)
        (λ counts t. counts ≡ counts_of t) }
    ensures walks { WalksOnce (K.seen keeper.old) (K.seen keeper.new) }
{
    let marks = read_marks(alloc, keeper)?;
    Ok(counts_in(&marks))
}

/// The counts of tables that have these marks.
pub(crate) fn counts_in(marks: &[Mark]) -> Counts
    ensures { (t : Tables) → marks.now ≡ marks_of t → result ≡ counts_of t }
{
    Counts {
        subscribers: count_in(marks, Kind::Subscribers),
        addons: count_in(marks, Kind::AddOns),
        modems: count_in(marks, Kind::Modems),
        classes: count_in(marks, Kind::Classes),
        pools: count_in(marks, Kind::Pools),
        batches: count_in(marks, Kind::Batches),
        hubs: count_in(marks, Kind::Hubs),
        device_pools: count_in(marks, Kind::DevicePools),
    }
}

// How many marks are of possible rows of a kind.
fn count_in(marks: &[Mark], kind: Kind) -> u64
    ensures { result ≡ count_by (is_marked kind) marks.now }
{
    marks
        .iter()
        .filter(|mark| is_of_kind(kind, mark.key) && mark.fits)
        .count() as u64
}

fn is_of_kind(kind: Kind, key: Key) -> bool
    ensures { result ≡ is_of_kind kind key }
{
    match kind {
        Kind::Subscribers => matches!(key, Key::Subscriber(_)),
        Kind::AddOns => matches!(key, Key::AddOn(_, _)),
        Kind::Modems => matches!(key, Key::Modem(_)),
        Kind::Classes => matches!(key, Key::Class(_)),
        Kind::Pools => matches!(key, Key::Pool(_)),
        Kind::Batches => matches!(key, Key::Batch(_)),
        Kind::Hubs => matches!(key, Key::Hub(_)),
        Kind::DevicePools => matches!(key, Key::DevicePool(_)),
    }
}
