//! The rows of an import that are decided, from its front on.

ghost use Rattle.std.specs.Prelude.{◌≡◌, [], true, OnOk};
ghost use Rattle.off_commands.specs.Imports.{Stands, IsPut, Marked, was_put};
ghost use Rattle.off_commands.specs.Imports.{put_of, row_key, is_sound_row};

use off_account_rules::Counts;
use off_base::NoMemory;
use off_defs::{Key, Row, Write, Writes};
use off_orders::ImportRow;
use std::alloc::Global;
use std::collections::BTreeSet;

/// What the decided rows make.
#[derive(Drop)]
pub(crate) struct Progress {
    /// The keys that they put.
    pub keys: BTreeSet<Key>,
    /// Their writes, in order.
    pub writes: Writes,
    /// How many rows there are of each kind behind the writes.
    pub counts: Counts,
}

/// No rows. It takes no memory.
#[tactic(auto, using(crate::proofs::ProgressLemmas::stands_none))]
pub(crate) fn begin(alloc: Global, counts: &Counts) -> Progress
    ensures stands { Stands counts.now result }
    ensures writes { result.writes ≡ [] }
    ensures counts { result.counts ≡ counts.now }
{
    Progress {
        keys: BTreeSet::new(alloc),
        writes: Writes::new(alloc),
        counts: *counts,
    }
}

/// Whether the rows put the key.
#[tactic(auto, using(crate::proofs::ProgressLemmas::put_by_order))]
pub(crate) fn was_put(keys: &BTreeSet<Key>, key: &Key) -> bool
    ensures { result ≡ was_put keys.now key.now }
{
    keys.contains(key)
}

/// Puts one more row, behind which there are so many of each kind.
#[tactic(auto, using(crate::proofs::ProgressLemmas::is_put))]
pub(crate) fn put_row(
    so_far: &mut Progress,
    row: &ImportRow,
    counts: &Counts,
) -> Result<(), NoMemory>
    requires sound { is_sound_row row.now ≡ true }
    requires batches { counts.now.batches ≡ so_far.old.counts.batches }
    ensures put { OnOk result (IsPut row.now so_far.old so_far.new) }
    ensures counts { OnOk result (so_far.new.counts ≡ counts.now) }
{
    mark_put(&mut so_far.keys, key_of(row))?;
    so_far.writes.push(write_of(row))?;
    so_far.counts = *counts;
    Ok(())
}

// Marks the key as one that was put.
#[tactic(auto, using(crate::proofs::ProgressLemmas::is_marked))]
fn mark_put(keys: &mut BTreeSet<Key>, key: Key) -> Result<(), NoMemory>
    ensures { OnOk result (Marked key keys.old keys.new) }
{
    match keys.insert(key) {
        Ok(_is_new) => Ok(()),
        Err(_refused) => Err(NoMemory),
    }
}

fn key_of(row: &ImportRow) -> Key
    ensures { result ≡ row_key row.now }
{
    match row {
        ImportRow::Subscriber(n, _) => Key::Subscriber(*n),
        ImportRow::Modem(mac, _) => Key::Modem(*mac),
    }
}

fn write_of(row: &ImportRow) -> Write
    ensures { result ≡ put_of row.now }
{
    match row {
        ImportRow::Subscriber(n, subscriber) => {
            Write::Put(Key::Subscriber(*n), Row::Subscriber(subscriber.copy()))
        }
        ImportRow::Modem(mac, modem) => Write::Put(Key::Modem(*mac), Row::Modem(modem.copy())),
    }
}
