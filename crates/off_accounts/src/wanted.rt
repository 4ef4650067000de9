ghost use Rattle.std.specs.Prelude.{◌≡◌, ◌&&◌, Some};
ghost use Rattle.off_account_rules.specs.Rows.{passes, fitting_pool, lease_of, device_of};
ghost use Rattle.off_account_rules.specs.Changes.{gives_up};
ghost use Rattle.off_orders.specs.Clerk.{is_other_with_relay, is_live};
ghost use Rattle.off_orders.specs.Clerk.{is_live_device};
ghost use Rattle.off_accounts.specs.Searches.{is_wanted, is_another, is_overlapping, pool_given};

use crate::lost::{Lost, gives_up};
use crate::searching::Sought;
use crate::whose::{Whose, pool_number};
use off_base::Moment;
use off_defs::{Key, Pool, Row};
use off_readers::{is_possible, overlaps};

/// Whether a row is sought.
pub(crate) fn is_wanted(sought: &Sought, key: &Key, row: &Row) -> bool
    ensures { result ≡ is_wanted sought.now (key.now, row.now) }
{
    match sought {
        Sought::Overlapping(whose, own, pool) => is_overlapping(*whose, *own, pool, key, row),
        Sought::WithRelay(whose, n, pool) => is_with_relay(*whose, *n, pool, key, row),
        Sought::LiveLost(now, lost) => match lost.whose {
            Whose::Modems => is_live_lease(*now, lost, key, row),
            Whose::Devices => is_live_device(*now, lost, key, row),
        },
    }
}

fn is_overlapping(whose: Whose, own: Option<u32>, pool: &Pool, key: &Key, row: &Row) -> bool
    ensures { result
        ≡ passes (is_overlapping own pool.now) (pool_given whose (key.now, row.now)) }
{
    match pool_given(whose, key, row) {
        Some(other) => is_another(own, other.0) && overlaps(pool, &other.1),
        None => false,
    }
}

fn is_another(own: Option<u32>, n: u32) -> bool
    ensures { result ≡ is_another own n }
{
    match own {
        Some(own) => n != own,
        None => true,
    }
}

fn is_with_relay(whose: Whose, n: u32, pool: &Pool, key: &Key, row: &Row) -> bool
    ensures { result
        ≡ passes (is_other_with_relay n pool.now) (pool_given whose (key.now, row.now)) }
{
    match pool_given(whose, key, row) {
        Some(other) => other.0 != n && other.1.relay.0 == pool.relay.0,
        None => false,
    }
}

// The pool of an entry with its number. An impossible one is none.
fn pool_given(whose: Whose, key: &Key, row: &Row) -> Option<(u32, Pool)>
    ensures { result ≡ pool_given whose (key.now, row.now) }
{
    let fits = is_possible(key, row);
    match whose {
        Whose::Modems => match key {
            Key::Pool(n) => match row {
                Row::Pool(pool) => fitting_pool(fits, *n, pool),
                _ => None,
            },
            _ => None,
        },
        Whose::Devices => match key {
            Key::DevicePool(n) => match row {
                Row::Pool(pool) => fitting_pool(fits, *n, pool),
                _ => None,
            },
            _ => None,
        },
    }
}

fn fitting_pool(fits: bool, n: u32, pool: &Pool) -> Option<(u32, Pool)>
    ensures { result ≡ fitting_pool fits n pool.now }
{
    if fits { Some((n, *pool)) } else { None }
}

fn is_live_lease(now: Moment, lost: &Lost, key: &Key, row: &Row) -> bool
    ensures { result
        ≡ passes (λ lease. gives_up (Some lost.now.old) lost.now.new lease.0
        && is_live now.0 lease) (lease_of (key.now, row.now)) }
{
    match key {
        Key::Lease(address) => match row {
            Row::Lease(lease) => gives_up(lost, *address) && now.0 < lease.expiry.0,
            _ => false,
        },
        _ => false,
    }
}

fn is_live_device(now: Moment, lost: &Lost, key: &Key, row: &Row) -> bool
    ensures { result
        ≡ passes (λ lease. gives_up (Some lost.now.old) lost.now.new lease.0
        && is_live_device now.0 lease) (device_of (key.now, row.now)) }
{
    match key {
        Key::Device(address) => match row {
            Row::Device(lease) => gives_up(lost, *address) && now.0 < lease.expiry.0,
            _ => false,
        },
        _ => false,
    }
}
