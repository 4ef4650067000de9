ghost use Rattle.std.specs.Prelude.{◌≡◌, ◌==◌, ◌&&◌, not, nat_le};
ghost use Rattle.off_defs.specs.Bounds.{last_add_on};
ghost use Rattle.off_account_rules.specs.Rows.{passes, is_possible, site_fits, is_offset};
ghost use Rattle.off_account_rules.specs.Rows.{is_lease_time};
ghost use Rattle.off_account_rules.specs.Rows.{subscriber_fits, class_is_good, add_on_is_good};
ghost use Rattle.off_account_rules.specs.Rows.{has_pool_size, pool_fits};
ghost use Rattle.off_account_rules.specs.Rows.{as_site, as_subscriber, as_add_on, as_class};
ghost use Rattle.off_account_rules.specs.Rows.{as_pool};
ghost use Rattle.off_account_rules.specs.Rows.{as_pool_hub};

use off_base::Settings;
use off_defs::{
    Key, LAST_ADD_ON, LEAST_PREFIX, MOST_DEVICES, MOST_PREFIX, Pool, Row, Site, Subscriber,
};
use off_tree::{check_addon, check_class};

// How many seconds the local time may differ from UTC: a day.
const MOST_OFFSET: i32 = 86_400;

// The shortest and the longest time of a lease, in seconds: a minute and a week.
const LEAST_LEASE: u32 = 60;

const MOST_LEASE: u32 = 604_800;

// How many addresses a pool may have.
const MOST_ADDRESSES: u32 = 4_096;

/// Whether the row may stand at the key: it's of the key's kind, and its own values are in their
/// ranges, whatever the other rows are.
pub fn is_possible(key: &Key, row: &Row) -> bool
    ensures { result ≡ is_possible key.now row.now }
{
    match *key {
        Key::Site => is_possible_site(row),
        Key::Subscriber(_) => is_possible_subscriber(row),
        Key::AddOn(_, number) => is_possible_add_on(number, row),
        Key::Modem(_) => matches!(row, Row::Modem(_)),
        Key::Class(_) => is_possible_class(row),
        Key::Pool(_) => is_possible_pool(row),
        Key::Lease(_) => matches!(row, Row::Lease(_)),
        Key::Held(_) => matches!(row, Row::Held(_)),
        Key::Batch(_) => matches!(row, Row::Batch(_)),
        Key::Hub(_) => is_possible_site(row),
        Key::PoolHub(_) => is_possible_pool_hub(row),
        Key::DevicePool(_) => is_possible_pool(row),
        Key::Device(_) => matches!(row, Row::Device(_)),
    }
}

fn is_possible_site(row: &Row) -> bool
    ensures { result ≡ passes site_fits (as_site row.now) }
{
    match row {
        Row::Site(site) => site_fits(site),
        _ => false,
    }
}

fn is_possible_subscriber(row: &Row) -> bool
    ensures { result ≡ passes subscriber_fits (as_subscriber row.now) }
{
    match row {
        Row::Subscriber(subscriber) => subscriber_fits(subscriber),
        _ => false,
    }
}

fn is_possible_add_on(number: u8, row: &Row) -> bool
    ensures { result ≡ passes
        (λ settings. nat_le number last_add_on && add_on_is_good settings) (as_add_on row.now) }
{
    match row {
        Row::AddOn(settings) => number <= LAST_ADD_ON && add_on_is_good(settings.as_settings()),
        _ => false,
    }
}

fn is_possible_class(row: &Row) -> bool
    ensures { result ≡ passes (λ class. class_is_good class.settings) (as_class row.now) }
{
    match row {
        Row::Class(class) => class_is_good(class.settings.as_settings()),
        _ => false,
    }
}

fn is_possible_pool(row: &Row) -> bool
    ensures { result ≡ passes pool_fits (as_pool row.now) }
{
    match row {
        Row::Pool(pool) => pool_fits(pool),
        _ => false,
    }
}

fn is_possible_pool_hub(row: &Row) -> bool
    ensures { result ≡ passes (λ hub. not (hub == 0)) (as_pool_hub row.now) }
{
    match row {
        Row::PoolHub(hub) => *hub != 0,
        _ => false,
    }
}

fn site_fits(site: &Site) -> bool
    ensures { result ≡ site_fits site.now }
{
    let secret = site.secret.as_slice().len();
    site.server.0 != 0
        && 1 <= secret
        && secret <= 64
        && is_offset(site.offset)
        && is_lease_time(site.lease)
}

pub fn is_offset(offset: i32) -> bool
    ensures { result ≡ is_offset offset }
{
    -MOST_OFFSET <= offset && offset <= MOST_OFFSET
}

pub fn is_lease_time(seconds: u32) -> bool
    ensures { result ≡ is_lease_time seconds }
{
    LEAST_LEASE <= seconds && seconds <= MOST_LEASE
}

fn subscriber_fits(subscriber: &Subscriber) -> bool
    ensures { result ≡ subscriber_fits subscriber.now }
{
    1 <= subscriber.cpes && subscriber.cpes <= MOST_DEVICES
}

#[tactic(auto, unfolding(off_account_rules::specs::Rows::class_is_good))]
fn class_is_good(settings: &Settings) -> bool
    ensures { result ≡ class_is_good settings.now }
{
    check_class(settings).is_ok()
}

#[tactic(auto, unfolding(off_account_rules::specs::Rows::add_on_is_good))]
fn add_on_is_good(settings: &Settings) -> bool
    ensures { result ≡ add_on_is_good settings.now }
{
    check_addon(settings).is_ok()
}

fn pool_fits(pool: &Pool) -> bool
    ensures { result ≡ pool_fits pool.now }
{
    has_pool_size(pool)
        && LEAST_PREFIX <= pool.prefix
        && pool.prefix <= MOST_PREFIX
        && pool.relay.0 != 0
}

pub fn has_pool_size(pool: &Pool) -> bool
    ensures { result ≡ has_pool_size pool.now }
{
    let first = pool.first.0;
    let last = pool.last.0;
    first <= last && last - first < MOST_ADDRESSES
}
