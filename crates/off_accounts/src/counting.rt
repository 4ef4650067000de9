//! How many rows of each kind there are behind a command, once its rules are passed.

ghost use Rattle.std.specs.Prelude.{◌≡◌, ◌≤◌, true, None, is_some, length, count_by};
ghost use Rattle.off_defs.specs.declared.kinds.Kind.TheVariants.{Hubs};
ghost use Rattle.off_orders.specs.Sound.{is_sound, is_removable};
ghost use Rattle.off_account_rules.specs.Rows.{seen_at};
ghost use Rattle.off_account_rules.specs.Changes.{add_on_keys};
ghost use Rattle.off_outside.specs.KeeperCalls.{Looks, Spent};
ghost use Rattle.off_accounts.specs.Deciding.{calls_to_count, calls_to_count_removed};
ghost use Rattle.off_accounts.specs.After.{CountsAfter, CountsAfterRemoval};
ghost use Rattle.off_accounts.specs.Changes.{counts_put};
ghost use Rattle.off_accounts.specs.Tests.{limit_rule};

use crate::limits::{counts_put, fewer_add_ons, one_less};
use crate::subject::Subject;
use off_account_rules::Counts;
use off_defs::{ADD_ONS, Key, Kind, Site};
use off_orders::Command;
use off_outside::{KeepErr, Keeper};
use off_readers::has_row;
use std::alloc::Global;

/// How many rows there are of each kind behind the command.
pub(crate) fn counts_after<K: Keeper>(
    alloc: Global,
    keeper: &mut K,
    counts: &Counts,
    subject: &Subject,
    c: &Command,
) -> Result<Counts, KeepErr>
    requires { is_sound c.now ≡ true }
    ensures told { Looks result (K.seen keeper.old) (K.seen keeper.new)
        (λ after t. CountsAfter counts.now subject.now c.now t after) }
    ensures spent { Spent (calls_to_count c.now) (K.seen keeper.old) (K.seen keeper.new) }
{
    let is_there = subject.is_there;
    match c {
        Command::PutHub(_, site) => Ok(counts_put_hub(counts, site, is_there)),
        Command::PutSubscriber(_, _) => Ok(counts_put(counts, Kind::Subscribers, is_there)),
        Command::PutAddOn(_, _, _) => Ok(counts_put(counts, Kind::AddOns, is_there)),
        Command::PutModem(_, _) => Ok(counts_put(counts, Kind::Modems, is_there)),
        Command::PutClass(_, _) => Ok(counts_put(counts, Kind::Classes, is_there)),
        Command::PutPool(_, _, _) => Ok(counts_put(counts, Kind::Pools, is_there)),
        Command::PutDevicePool(_, _) => Ok(counts_put(counts, Kind::DevicePools, is_there)),
        Command::Remove(key) => counts_after_removal(alloc, keeper, counts, key),
        Command::Show(_) => Ok(*counts),
        Command::Import { .. } => Ok(*counts),
    }
}

// A hub's row is counted, since it's possible: by its type the site's secret isn't too long.
fn counts_put_hub(counts: &Counts, site: &Site, is_there: bool) -> Counts
    ensures put { limit_rule counts.now Hubs is_there ≡ None
        → result ≡ counts_put Hubs is_there counts.now }
    ensures fits { length site.now.secret ≤ 64 }
{
    let _secret = site.secret.as_slice();
    counts_put(counts, Kind::Hubs, is_there)
}

fn counts_after_removal<K: Keeper>(
    alloc: Global,
    keeper: &mut K,
    counts: &Counts,
    key: &Key,
) -> Result<Counts, KeepErr>
    requires { is_removable key.now ≡ true }
    ensures told { Looks result (K.seen keeper.old) (K.seen keeper.new)
        (λ after t. CountsAfterRemoval counts.now key.now t after) }
    ensures spent { Spent (calls_to_count_removed key.now)
        (K.seen keeper.old) (K.seen keeper.new) }
{
    match *key {
        Key::Subscriber(n) => {
            let lost = count_add_ons(alloc, keeper, n)?;
            Ok(fewer_add_ons(&one_less(counts, Kind::Subscribers), lost))
        }
        Key::AddOn(_, _) => Ok(one_less(counts, Kind::AddOns)),
        Key::Modem(_) => Ok(one_less(counts, Kind::Modems)),
        Key::Class(_) => Ok(one_less(counts, Kind::Classes)),
        Key::Pool(_) => Ok(one_less(counts, Kind::Pools)),
        Key::Hub(_) => Ok(one_less(counts, Kind::Hubs)),
        Key::DevicePool(_) => Ok(one_less(counts, Kind::DevicePools)),
        // A clerk doesn't remove these.
        Key::Site | Key::Lease(_) | Key::Held(_) | Key::Batch(_) => unreachable!(),
        Key::PoolHub(_) | Key::Device(_) => unreachable!(),
    }
}

// How many add-ons the subscriber has.
fn count_add_ons<K: Keeper>(alloc: Global, keeper: &mut K, n: u32) -> Result<u64, KeepErr>
    ensures told { Looks result (K.seen keeper.old) (K.seen keeper.new)
        (λ count t. count ≡ count_by (λ key. is_some (seen_at t key)) (add_on_keys n)) }
    ensures spent { Spent 8 (K.seen keeper.old) (K.seen keeper.new) }
{
    let mut count: u64 = 0;
    for number in 0..ADD_ONS {
        if has_row(alloc, keeper, &Key::AddOn(n, number))? {
            count += 1;
        }
    }
    Ok(count)
}
