ghost use Rattle.std.specs.Prelude.{◌≡◌, ◌==◌, ◌≤◌, length, option_copied};
ghost use Rattle.std.specs.Prelude.{Some, IfSome};
ghost use Rattle.std.specs.List.{position};
ghost use Rattle.off_base.specs.Number.{number_read};
ghost use Rattle.off_defs.specs.Bounds.{last_add_on};
ghost use Rattle.off_clerk_rules.specs.Paths.{path_of, length_before, read_behind, last_number};
ghost use Rattle.off_clerk_rules.specs.Paths.{add_on_named, site_at, hub_at, subscriber_at};
ghost use Rattle.off_clerk_rules.specs.Paths.{add_on_at};
ghost use Rattle.off_clerk_rules.specs.Paths.{modem_at, class_at, pool_at, device_pool_at};
ghost use Rattle.off_clerk_rules.specs.Paths.{lease_at, place_at};
ghost use Rattle.off_clerk_rules.specs.Paths.{import_named, subscribers_at, modems_at};
ghost use Rattle.off_clerk_rules.specs.Paths.{only_shown, kept, removable, IsNamed};

use off_base::{read_ip, read_mac, read_number};
use off_clerk_rules::Place;
use off_defs::{ImportKind, Key, LAST_ADD_ON};
use off_fields::LAST_NUMBER;

// The path of a request's target: what stands before its first `?`.
pub(crate) fn path_of(target: &[u8]) -> &[u8]
    ensures { result.now ≡ path_of target.now }
{
    &target[..length_before(target, b'?')]
}

// What a path names.
pub(crate) fn place_at(path: &[u8]) -> Option<Place>
    ensures exact { result ≡ place_at path.now }
    ensures named { IfSome result IsNamed }
{
    site_at(path)
        .or(hub_at(path))
        .or(subscriber_at(path))
        .or(add_on_at(path))
        .or(modem_at(path))
        .or(class_at(path))
        .or(pool_at(path))
        .or(device_pool_at(path))
        .or(lease_at(path))
        .or(subscribers_at(path))
        .or(modems_at(path))
}

// A path at which a row is only shown.
fn only_shown(key: Key) -> Place
    ensures { result ≡ only_shown key }
{
    Place::Row {
        key,
        puts: false,
        deletes: false,
    }
}

// A path at which a row may be put as well.
fn kept(key: Key) -> Place
    ensures { result ≡ kept key }
{
    Place::Row {
        key,
        puts: true,
        deletes: false,
    }
}

// A path at which a row may be put, and removed.
fn removable(key: Key) -> Place
    ensures { result ≡ removable key }
{
    Place::Row {
        key,
        puts: true,
        deletes: true,
    }
}

// The number of bytes before the first mark, or of all.
fn length_before(text: &[u8], mark: u8) -> usize
    ensures exact { result ≡ length_before mark text.now }
    ensures within { result ≤ length text.now }
{
    place_of(text, mark).unwrap_or(text.len())
}

fn place_of(text: &[u8], mark: u8) -> Option<usize>
    ensures exact { result ≡ position (λ byte. byte == mark) text.now }
    ensures within { IfSome result (λ place. place ≤ length text.now) }
{
    text.iter().position(|byte| *byte == mark)
}

// What stands behind a front, where the text begins so.
fn read_behind<'a>(front: &[u8], text: &'a [u8]) -> Option<&'a [u8]>
    ensures { option_copied result ≡ read_behind front.now Some text.now }
{
    if text.starts_with(front) {
        Some(&text[front.len()..])
    } else {
        None
    }
}

fn number_of(text: &[u8]) -> Option<u32>
    ensures { result ≡ number_read last_number text.now }
{
    match read_number(text, LAST_NUMBER) {
        Some(number) => Some(number as u32),
        None => None,
    }
}

fn add_on_of(text: &[u8]) -> Option<u8>
    ensures exact { result ≡ number_read last_add_on text.now }
    ensures within { IfSome result (λ number. number ≤ last_add_on) }
{
    match read_number(text, u64::from(LAST_ADD_ON)) {
        Some(number) => Some(number as u8),
        None => None,
    }
}

// The site of an office of earlier days is its hub 0.
fn site_at(path: &[u8]) -> Option<Place>
    ensures exact { result ≡ site_at path.now }
    ensures named { IfSome result IsNamed }
{
    if path == b"/site".as_slice() {
        Some(kept(Key::Hub(0)))
    } else {
        None
    }
}

fn hub_at(path: &[u8]) -> Option<Place>
    ensures exact { result ≡ hub_at path.now }
    ensures named { IfSome result IsNamed }
{
    let Some(text) = read_behind(b"/hubs/", path) else {
        return None;
    };
    let Some(number) = number_of(text) else {
        return None;
    };
    Some(removable(Key::Hub(number)))
}

fn subscriber_at(path: &[u8]) -> Option<Place>
    ensures exact { result ≡ subscriber_at path.now }
    ensures named { IfSome result IsNamed }
{
    let Some(text) = read_behind(b"/subscribers/", path) else {
        return None;
    };
    let Some(number) = number_of(text) else {
        return None;
    };
    Some(removable(Key::Subscriber(number)))
}

fn add_on_at(path: &[u8]) -> Option<Place>
    ensures exact { result ≡ add_on_at path.now }
    ensures named { IfSome result IsNamed }
{
    match read_behind(b"/subscribers/", path) {
        Some(text) => add_on_named(text),
        None => None,
    }
}

fn add_on_named(text: &[u8]) -> Option<Place>
    ensures exact { result ≡ add_on_named text.now }
    ensures named { IfSome result IsNamed }
{
    let cut = length_before(text, b'/');
    let Some(subscriber) = number_of(&text[..cut]) else {
        return None;
    };
    let Some(text) = read_behind(b"/addons/", &text[cut..]) else {
        return None;
    };
    let Some(number) = add_on_of(text) else {
        return None;
    };
    Some(removable(Key::AddOn(subscriber, number)))
}

fn modem_at(path: &[u8]) -> Option<Place>
    ensures exact { result ≡ modem_at path.now }
    ensures named { IfSome result IsNamed }
{
    let Some(text) = read_behind(b"/modems/", path) else {
        return None;
    };
    match read_mac(text) {
        Ok(mac) => Some(removable(Key::Modem(mac))),
        Err(_) => None,
    }
}

fn class_at(path: &[u8]) -> Option<Place>
    ensures exact { result ≡ class_at path.now }
    ensures named { IfSome result IsNamed }
{
    let Some(text) = read_behind(b"/classes/", path) else {
        return None;
    };
    let Some(number) = number_of(text) else {
        return None;
    };
    Some(removable(Key::Class(number)))
}

fn pool_at(path: &[u8]) -> Option<Place>
    ensures exact { result ≡ pool_at path.now }
    ensures named { IfSome result IsNamed }
{
    let Some(text) = read_behind(b"/pools/", path) else {
        return None;
    };
    let Some(number) = number_of(text) else {
        return None;
    };
    Some(removable(Key::Pool(number)))
}

fn device_pool_at(path: &[u8]) -> Option<Place>
    ensures exact { result ≡ device_pool_at path.now }
    ensures named { IfSome result IsNamed }
{
    let Some(text) = read_behind(b"/device-pools/", path) else {
        return None;
    };
    let Some(number) = number_of(text) else {
        return None;
    };
    Some(removable(Key::DevicePool(number)))
}

fn lease_at(path: &[u8]) -> Option<Place>
    ensures exact { result ≡ lease_at path.now }
    ensures named { IfSome result IsNamed }
{
    let Some(text) = read_behind(b"/leases/", path) else {
        return None;
    };
    match read_ip(text) {
        Ok(address) => Some(only_shown(Key::Lease(address))),
        Err(_) => None,
    }
}

// The imports of subscribers.
fn subscribers_at(path: &[u8]) -> Option<Place>
    ensures exact { result ≡ subscribers_at path.now }
    ensures named { IfSome result IsNamed }
{
    match read_behind(b"/imports/subscribers/", path) {
        Some(text) => import_named(ImportKind::Subscribers, text),
        None => None,
    }
}

// The imports of modems.
fn modems_at(path: &[u8]) -> Option<Place>
    ensures exact { result ≡ modems_at path.now }
    ensures named { IfSome result IsNamed }
{
    match read_behind(b"/imports/modems/", path) {
        Some(text) => import_named(ImportKind::Modems, text),
        None => None,
    }
}

fn import_named(kind: ImportKind, text: &[u8]) -> Option<Place>
    ensures exact { result ≡ import_named kind text.now }
    ensures named { IfSome result IsNamed }
{
    match read_number(text, u64::MAX) {
        Some(batch) => Some(Place::Import { kind, batch }),
        None => None,
    }
}
