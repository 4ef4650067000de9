//! The rules of each command, in their order.

ghost use Rattle.std.specs.Prelude.{◌≡◌};
ghost use Rattle.off_accounts.specs.Tests.{tests_of, pool_tests, device_pool_tests};
ghost use Rattle.off_accounts.specs.Tests.{removal_tests, hub_tests};
ghost use Rattle.off_accounts.specs.Tests.{one_test, two_tests, three_tests};
ghost use Rattle.off_accounts.specs.Tests.{live_test, limit_test, row_test, use_test};

use crate::limits::limit_rule;
use crate::lost::Lost;
use crate::results::Asked;
use crate::searching::Sought;
use crate::subject::Subject;
use crate::testing::{Test, unless};
use crate::values::{add_on_fault, class_fault};
use crate::whose::Whose;
use off_base::Moment;
use off_defs::{Key, Kind, Pool, Site};
use off_orders::{Command, Rule};
use off_readers::{has_pool_size, is_lease_time, is_offset};

// Where a command has fewer rules.
const NO_TEST: Test = Test::Tested(None);

/// The tests of a command, one for each of its rules, behind what the tables have at its key.
pub(crate) fn tests_of(asked: &Asked, subject: &Subject, c: &Command) -> [Test; 7]
    ensures { result ≡ tests_of asked.now.counts asked.now.at subject.now c.now }
{
    match c {
        Command::PutHub(_, site) => hub_tests(asked, subject, site),
        Command::PutSubscriber(_, _) => one_test(limit_test(asked, Kind::Subscribers, subject)),
        Command::PutAddOn(n, _, settings) => three_tests(
            Test::HasSubscriber(*n),
            Test::Tested(add_on_fault(settings.as_settings())),
            limit_test(asked, Kind::AddOns, subject),
        ),
        Command::PutModem(_, modem) => three_tests(
            Test::HasSubscriber(modem.subscriber),
            Test::HasClass(modem.class),
            limit_test(asked, Kind::Modems, subject),
        ),
        Command::PutClass(_, class) => two_tests(
            Test::Tested(class_fault(class.settings.as_settings())),
            limit_test(asked, Kind::Classes, subject),
        ),
        Command::PutPool(n, pool, hub) => pool_tests(asked, subject, *n, pool, *hub),
        Command::PutDevicePool(n, pool) => device_pool_tests(asked, subject, *n, pool),
        Command::Remove(key) => removal_tests(asked.at, subject, key),
        Command::Show(_) => one_test(row_test(subject)),
        Command::Import { .. } => one_test(NO_TEST),
    }
}

fn hub_tests(asked: &Asked, subject: &Subject, site: &Site) -> [Test; 7]
    ensures { result ≡ hub_tests asked.now.counts subject.now site.now }
{
    [
        Test::Tested(unless(site.server.0 != 0, Rule::Site(1))),
        Test::Tested(unless(!site.secret.as_slice().is_empty(), Rule::Site(2))),
        Test::Tested(unless(is_lease_time(site.lease), Rule::Site(3))),
        Test::Tested(unless(is_offset(site.offset), Rule::Site(4))),
        limit_test(asked, Kind::Hubs, subject),
        NO_TEST,
        NO_TEST,
    ]
}

fn pool_tests(asked: &Asked, subject: &Subject, n: u32, pool: &Pool, hub: u32) -> [Test; 7]
    ensures { result ≡ pool_tests asked.now.counts asked.now.at subject.now n pool.now hub }
{
    [
        Test::Tested(unless(has_pool_size(pool), Rule::PoolSize)),
        Test::FindsNone(Sought::Overlapping(Whose::Modems, Some(n), *pool)),
        Test::FindsNone(Sought::Overlapping(Whose::Devices, None, *pool)),
        Test::FindsNone(Sought::WithRelay(Whose::Modems, n, *pool)),
        Test::HasHub(hub),
        live_test(Whose::Modems, asked.at, subject.pool, Some(*pool)),
        limit_test(asked, Kind::Pools, subject),
    ]
}

fn device_pool_tests(asked: &Asked, subject: &Subject, n: u32, pool: &Pool) -> [Test; 7]
    ensures { result ≡ device_pool_tests asked.now.counts asked.now.at subject.now n pool.now }
{
    [
        Test::Tested(unless(has_pool_size(pool), Rule::PoolSize)),
        Test::FindsNone(Sought::Overlapping(Whose::Modems, None, *pool)),
        Test::FindsNone(Sought::Overlapping(Whose::Devices, Some(n), *pool)),
        Test::FindsNone(Sought::WithRelay(Whose::Devices, n, *pool)),
        live_test(Whose::Devices, asked.at, subject.pool, Some(*pool)),
        limit_test(asked, Kind::DevicePools, subject),
        NO_TEST,
    ]
}

fn removal_tests(at: Moment, subject: &Subject, key: &Key) -> [Test; 7]
    ensures { result ≡ removal_tests at subject.now key.now }
{
    let second = match *key {
        Key::Subscriber(_) => use_test(subject, Rule::HasModems),
        Key::Class(_) => use_test(subject, Rule::ClassInUse),
        Key::Pool(_) => live_test(Whose::Modems, at, subject.pool, None),
        Key::DevicePool(_) => live_test(Whose::Devices, at, subject.pool, None),
        Key::Hub(n) => Test::HasNoPool(n),
        Key::Site | Key::AddOn(_, _) | Key::Modem(_) => NO_TEST,
        Key::Lease(_) | Key::Held(_) | Key::Batch(_) => NO_TEST,
        Key::PoolHub(_) | Key::Device(_) => NO_TEST,
    };
    two_tests(row_test(subject), second)
}

fn one_test(first: Test) -> [Test; 7]
    ensures { result ≡ one_test first }
{
    two_tests(first, NO_TEST)
}

fn two_tests(first: Test, second: Test) -> [Test; 7]
    ensures { result ≡ two_tests first second }
{
    three_tests(first, second, NO_TEST)
}

fn three_tests(first: Test, second: Test, third: Test) -> [Test; 7]
    ensures { result ≡ three_tests first second third }
{
    [first, second, third, NO_TEST, NO_TEST, NO_TEST, NO_TEST]
}

fn limit_test(asked: &Asked, kind: Kind, subject: &Subject) -> Test
    ensures { result ≡ limit_test asked.now.counts kind subject.now }
{
    Test::Tested(limit_rule(&asked.counts, kind, subject.is_there))
}

fn row_test(subject: &Subject) -> Test
    ensures { result ≡ row_test subject.now }
{
    Test::Tested(unless(subject.is_there, Rule::NoRow))
}

// No modem names what is removed.
fn use_test(subject: &Subject, rule: Rule) -> Test
    ensures { result ≡ use_test subject.now rule }
{
    Test::Tested(unless(subject.uses == 0, rule))
}

// No lease that hasn't expired is lost where a pool, or none, takes the place of another, or of
// none.
fn live_test(whose: Whose, at: Moment, old: Option<Pool>, new: Option<Pool>) -> Test
    ensures { result ≡ live_test whose at old new }
{
    match old {
        None => NO_TEST,
        Some(old) => Test::FindsNone(Sought::LiveLost(at, Lost { whose, old, new })),
    }
}
