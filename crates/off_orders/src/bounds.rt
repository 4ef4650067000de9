ghost use Rattle.std.specs.Prelude.{◌≡◌};
ghost use Rattle.std.specs.List.{list_all};
ghost use Rattle.off_orders.specs.Sound.{is_sound, is_add_on_number};
ghost use Rattle.off_account_rules.specs.Rows.{subscriber_fits};
ghost use Rattle.off_orders.specs.Sound.{is_sound_pool, is_removable, is_shown, is_row_of};

use crate::orders::{Command, ImportRow, ImportRows};
use off_defs::{
    ImportKind, Key, LAST_ADD_ON, LEAST_PREFIX, MOST_DEVICES, MOST_PREFIX, Pool, Subscriber,
};

// How many rows an import may have.
const MOST_ROWS: usize = 2_000;

/// Whether a clerk may mean this command: its numbers are in their ranges, an import's rows are all
/// of its kind and at most 2,000, and the removed or shown key is of a kind that can be removed or
/// shown.
pub fn sound(c: &Command) -> bool
    ensures { result ≡ is_sound c.now }
{
    match c {
        Command::PutHub(_, _) => true,
        Command::PutSubscriber(_, subscriber) => has_devices(subscriber),
        Command::PutAddOn(_, number, _) => is_add_on(*number),
        Command::PutModem(_, _) => true,
        Command::PutClass(_, _) => true,
        Command::PutPool(_, pool, _) => has_network(pool),
        Command::PutDevicePool(_, pool) => has_network(pool),
        Command::Remove(key) => can_remove(key),
        Command::Show(key) => can_show(key),
        Command::Import { kind, rows, .. } => rows.len() <= MOST_ROWS && are_all(*kind, rows),
    }
}

fn has_devices(subscriber: &Subscriber) -> bool
    ensures { result ≡ subscriber_fits subscriber.now }
{
    1 <= subscriber.cpes && subscriber.cpes <= MOST_DEVICES
}

fn is_add_on(number: u8) -> bool
    ensures { result ≡ is_add_on_number number }
{
    number <= LAST_ADD_ON
}

fn has_network(pool: &Pool) -> bool
    ensures { result ≡ is_sound_pool pool.now }
{
    LEAST_PREFIX <= pool.prefix && pool.prefix <= MOST_PREFIX && pool.relay.0 != 0
}

fn can_remove(key: &Key) -> bool
    ensures { result ≡ is_removable key.now }
{
    match key {
        Key::Subscriber(_) => true,
        Key::AddOn(_, number) => is_add_on(*number),
        Key::Modem(_) => true,
        Key::Class(_) => true,
        Key::Pool(_) => true,
        Key::Site => false,
        Key::Lease(_) => false,
        Key::Held(_) => false,
        Key::Batch(_) => false,
        Key::Hub(_) => true,
        Key::PoolHub(_) => false,
        Key::DevicePool(_) => true,
        Key::Device(_) => false,
    }
}

fn can_show(key: &Key) -> bool
    ensures { result ≡ is_shown key.now }
{
    match key {
        Key::Lease(_) => true,
        _ => can_remove(key),
    }
}

fn are_all(kind: ImportKind, rows: &ImportRows) -> bool
    ensures { result ≡ list_all (is_row_of kind) rows.now }
{
    for place in 0..rows.len() {
        if !is_of(kind, rows.get(place)) {
            return false;
        }
    }
    true
}

fn is_of(kind: ImportKind, row: &ImportRow) -> bool
    ensures { result ≡ is_row_of kind row.now }
{
    match kind {
        ImportKind::Subscribers => match row {
            ImportRow::Subscriber(_, subscriber) => has_devices(subscriber),
            ImportRow::Modem(_, _) => false,
        },
        ImportKind::Modems => match row {
            ImportRow::Subscriber(_, _) => false,
            ImportRow::Modem(_, _) => true,
        },
    }
}
