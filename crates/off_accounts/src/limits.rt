//! How many rows of each kind there may be, and how many there are after a write.

ghost use Rattle.std.specs.Prelude.{◌≡◌, ◌-◌, true, None};
ghost use Rattle.off_defs.specs.declared.kinds.Kind.TheVariants.{AddOns};
ghost use Rattle.off_orders.specs.Clerk.{limit_of};
ghost use Rattle.off_accounts.specs.Changes.{count_in, with_count, counts_put, counts_drop};
ghost use Rattle.off_accounts.specs.Tests.{limit_rule};

use off_account_rules::Counts;
use off_defs::Kind;
use off_orders::Rule;

/// The rule that there may be only so many rows of a kind, where a key of it gets a row.
pub fn limit_rule(counts: &Counts, kind: Kind, is_there: bool) -> Option<Rule>
    ensures { result ≡ limit_rule counts.now kind is_there }
{
    let most = limit_of(kind);
    if !is_there && most as u64 <= count_of(counts, kind) {
        return Some(Rule::Limit(kind, most));
    }
    None
}

/// The counts after a key of the kind gets a row, where the limit of the kind permits it.
pub fn counts_put(counts: &Counts, kind: Kind, is_there: bool) -> Counts
    ensures { limit_rule counts.now kind is_there ≡ None
        → result ≡ counts_put kind is_there counts.now }
{
    if is_there {
        return *counts;
    }
    with_count(counts, kind, count_of(counts, kind).saturating_add(1))
}

/// The counts after a key of the kind that had a row loses it.
pub(crate) fn one_less(counts: &Counts, kind: Kind) -> Counts
    ensures { result ≡ counts_drop kind true counts.now }
{
    with_count(counts, kind, count_of(counts, kind).saturating_sub(1))
}

/// The counts after so many add-ons lose their rows.
pub(crate) fn fewer_add_ons(counts: &Counts, lost: u64) -> Counts
    ensures { result ≡ with_count AddOns (count_in AddOns counts.now - lost) counts.now }
{
    with_count(
        counts,
        Kind::AddOns,
        count_of(counts, Kind::AddOns).saturating_sub(lost),
    )
}

/// How many rows of a kind there may be.
fn limit_of(kind: Kind) -> u32
    ensures { result ≡ limit_of kind }
{
    match kind {
        Kind::Subscribers => 200_000,
        Kind::AddOns => 100_000,
        Kind::Modems => 200_000,
        Kind::Classes => 1_000,
        Kind::Pools => 64,
        Kind::Batches => 100_000,
        Kind::Hubs => 64,
        Kind::DevicePools => 64,
    }
}

fn count_of(counts: &Counts, kind: Kind) -> u64
    ensures { result ≡ count_in kind counts.now }
{
    match kind {
        Kind::Subscribers => counts.subscribers,
        Kind::AddOns => counts.addons,
        Kind::Modems => counts.modems,
        Kind::Classes => counts.classes,
        Kind::Pools => counts.pools,
        Kind::Batches => counts.batches,
        Kind::Hubs => counts.hubs,
        Kind::DevicePools => counts.device_pools,
    }
}

fn with_count(counts: &Counts, kind: Kind, n: u64) -> Counts
    ensures { result ≡ with_count kind n counts.now }
{
    let mut changed = *counts;
    match kind {
        Kind::Subscribers => changed.subscribers = n,
        Kind::AddOns => changed.addons = n,
        Kind::Modems => changed.modems = n,
        Kind::Classes => changed.classes = n,
        Kind::Pools => changed.pools = n,
        Kind::Batches => changed.batches = n,
        Kind::Hubs => changed.hubs = n,
        Kind::DevicePools => changed.device_pools = n,
    }
    changed
}
