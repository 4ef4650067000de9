ghost use Rattle.std.specs.Prelude.{◌≡◌, false, not, map};
ghost use Rattle.off_base.specs.Choices.{when, first_there};
ghost use Rattle.off_outside.specs.KeeperCalls.{Looks, Spent, WasCounted};
ghost use Rattle.off_orders.specs.Clerk.{no_subscriber, no_class, no_hub};
ghost use Rattle.off_accounts.specs.Tests.{says, looks_up, searches, lookups, any_searches};
ghost use Rattle.off_accounts.specs.Tests.{found_rule, rule_at, overlap_rule, sought_rule};
ghost use Rattle.off_accounts.specs.Walking.{WalksOver, looks_at, test_calls, tests_calls};
ghost use Rattle.off_defs.specs.State.{Tables};

use crate::hubs::hub_in_use;
use crate::searching::{Sought, search};
use crate::whose::{Whose, lease_address, pool_number};
use off_defs::Key;
use off_orders::Rule;
use off_outside::{KeepErr, Keeper};
use off_readers::has_row;
use std::alloc::Global;

/// A rule, as it's tested.
#[derive(Clone, Copy, PartialEq, Eq)]
pub enum Test {
    /// It's tested already: the rule where it's broken, or `None`.
    Tested(Option<Rule>),
    /// There is the subscriber.
    HasSubscriber(u32),
    /// There is the class.
    HasClass(u32),
    /// There is the hub.
    HasHub(u32),
    /// There is nothing of what is looked for.
    FindsNone(Sought),
    /// The hub is that of no pool.
    HasNoPool(u32),
}

/// The first rule that is broken, in their order, or `None` where none is. What comes behind it
/// isn't tested.
pub fn first_broken<K: Keeper>(
    alloc: Global,
    keeper: &mut K,
    tests: &[Test],
) -> Result<Option<Rule>, KeepErr>
    ensures told { Looks result (K.seen keeper.old) (K.seen keeper.new)
        (λ broken t. broken ≡ first_there (map (says t) tests.now)) }
    ensures spent { any_searches tests.now ≡ false
        → Spent (lookups tests.now) (K.seen keeper.old) (K.seen keeper.new) }
    ensures asks { (t : Tables) → (K.seen keeper.old).tables t
        → Spent (tests_calls t tests.now) (K.seen keeper.old) (K.seen keeper.new) }
{
    for test in tests {
        let broken = broken_by(alloc, keeper, test)?;
        if broken.is_some() {
            return Ok(broken);
        }
    }
    Ok(None)
}

// The rule of the test, where it's broken.
#[tactic(auto, using(off_readers::proofs::ReadRules::one_read))]
fn broken_by<K: Keeper>(alloc: Global, keeper: &mut K, test: &Test) -> Result<Option<Rule>, KeepErr>
    ensures told { Looks result (K.seen keeper.old) (K.seen keeper.new)
        (λ broken t. broken ≡ says t test.now) }
    ensures spent { searches test.now ≡ false
        → Spent (looks_up test.now) (K.seen keeper.old) (K.seen keeper.new) }
    ensures asks { (t : Tables) → (K.seen keeper.old).tables t
        → Spent (test_calls t test.now) (K.seen keeper.old) (K.seen keeper.new) }
{
    match *test {
        Test::Tested(broken) => Ok(broken),
        Test::HasSubscriber(n) => no_subscriber(alloc, keeper, n),
        Test::HasClass(n) => no_class(alloc, keeper, n),
        Test::HasHub(n) => no_hub(alloc, keeper, n),
        Test::FindsNone(sought) => what_is_found(alloc, keeper, &sought),
        Test::HasNoPool(hub) => hub_in_use(alloc, keeper, hub),
    }
}

fn no_subscriber<K: Keeper>(alloc: Global, keeper: &mut K, n: u32) -> Result<Option<Rule>, KeepErr>
    ensures told { Looks result (K.seen keeper.old) (K.seen keeper.new)
        (λ broken t. broken ≡ no_subscriber t n) }
    ensures counted { WasCounted (K.seen keeper.old) (K.seen keeper.new) }
{
    let is_there = has_row(alloc, keeper, &Key::Subscriber(n))?;
    Ok(unless(is_there, Rule::NoSubscriber))
}

fn no_class<K: Keeper>(alloc: Global, keeper: &mut K, n: u32) -> Result<Option<Rule>, KeepErr>
    ensures told { Looks result (K.seen keeper.old) (K.seen keeper.new)
        (λ broken t. broken ≡ no_class t n) }
    ensures counted { WasCounted (K.seen keeper.old) (K.seen keeper.new) }
{
    let is_there = has_row(alloc, keeper, &Key::Class(n))?;
    Ok(unless(is_there, Rule::NoClass))
}

fn no_hub<K: Keeper>(alloc: Global, keeper: &mut K, n: u32) -> Result<Option<Rule>, KeepErr>
    ensures told { Looks result (K.seen keeper.old) (K.seen keeper.new)
        (λ broken t. broken ≡ no_hub t n) }
    ensures counted { WasCounted (K.seen keeper.old) (K.seen keeper.new) }
{
    let is_there = has_row(alloc, keeper, &Key::Hub(n))?;
    Ok(unless(is_there, Rule::NoHub))
}

/// The rule, unless the condition holds.
pub(crate) fn unless(holds: bool, rule: Rule) -> Option<Rule>
    ensures { result ≡ when (not holds) rule }
{
    if holds { None } else { Some(rule) }
}

// The rule that is broken by the least of what is looked for.
fn what_is_found<K: Keeper>(
    alloc: Global,
    keeper: &mut K,
    sought: &Sought,
) -> Result<Option<Rule>, KeepErr>
    ensures told { Looks result (K.seen keeper.old) (K.seen keeper.new)
        (λ broken t. broken ≡ sought_rule sought.now t) }
    ensures walks { WalksOver (looks_at sought.now) (K.seen keeper.old) (K.seen keeper.new) }
{
    let found = search(alloc, keeper, sought)?;
    Ok(found_rule(sought, found))
}

fn found_rule(sought: &Sought, found: Option<Key>) -> Option<Rule>
    ensures { result ≡ found_rule sought.now found }
{
    let Some(key) = found else { return None };
    rule_at(sought, key)
}

// The rule that is broken by the row of the key.
fn rule_at(sought: &Sought, key: Key) -> Option<Rule>
    ensures { result ≡ rule_at sought.now key }
{
    match *sought {
        Sought::Overlapping(whose, _, _) => match pool_number(whose, key) {
            Some(n) => Some(overlap_rule(whose, n)),
            None => None,
        },
        Sought::WithRelay(whose, _, _) => match pool_number(whose, key) {
            Some(n) => Some(Rule::RelayTaken(n)),
            None => None,
        },
        Sought::LiveLost(_, lost) => match lease_address(lost.whose, key) {
            Some(address) => Some(Rule::PoolHasLeases(address)),
            None => None,
        },
    }
}

fn overlap_rule(whose: Whose, n: u32) -> Rule
    ensures { result ≡ overlap_rule whose n }
{
    match whose {
        Whose::Modems => Rule::PoolOverlap(n),
        Whose::Devices => Rule::DeviceOverlap(n),
    }
}
