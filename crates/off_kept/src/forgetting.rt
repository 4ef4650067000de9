//! One turn round the cache, from its last entry to its first: each entry is taken out or goes to
//! the front, so that the order of those that stay comes back by itself.
ghost use Rattle.std.specs.Prelude.{◌≡◌, [], ◌∷◌, ◌++◌, option_map, if◌then◌else◌};
ghost use Rattle.lru.specs.LruCache.{last_entry};
ghost use Rattle.off_kept.specs.Entries.{Entry, Entries, stands_in, is_written};
ghost use Rattle.off_kept.specs.Entries.{is_of_files, changes_files, without_written};
ghost use Rattle.off_defs.specs.Tables.{key_written};

use crate::bodies::KeptBody;
use lru::LruCache;
use off_base::Mac;
use off_defs::{Key, Write, Writes};

/// Takes out the entries of which these writes change a row.
pub(crate) fn forget_written(cache: &mut LruCache<Mac, KeptBody>, writes: &Writes)
    ensures entries { cache.new.entries ≡ without_written writes.now cache.old.entries }
    ensures cap { cache.new.cap ≡ cache.old.cap }
{
    let is_of_files = changes_files(writes);
    if !is_of_files {
        return;
    }
    for _passed in 0..cache.len() {
        turn(cache, writes);
    }
}

// Whether the writes change a row that stands in some files. Leases don't, which are written most.
fn changes_files(writes: &Writes) -> bool
    ensures { result ≡ changes_files writes.now }
{
    for place in 0..writes.len() {
        if is_of_files(key_of(writes.get(place))) {
            return true;
        }
    }
    false
}

// Whether rows of this key stand in some files.
fn is_of_files(key: Key) -> bool
    ensures { result ≡ is_of_files key }
{
    match key {
        Key::Modem(_) | Key::Subscriber(_) | Key::AddOn(_, _) | Key::Class(_) => true,
        Key::Site | Key::Pool(_) | Key::Lease(_) | Key::Held(_) | Key::Batch(_) => false,
        Key::Hub(_) | Key::PoolHub(_) | Key::DevicePool(_) | Key::Device(_) => false,
    }
}

// Takes out the last entry where the writes change a row of it, and puts it first where not.
fn turn(cache: &mut LruCache<Mac, KeptBody>, writes: &Writes)
    ensures turns { (front : Entries) (last : Entry) → cache.old.entries ≡ front ++ last ∷ []
        → cache.new.entries ≡ (if is_written writes.now last then front else last ∷ front) }
    ensures cap { cache.new.cap ≡ cache.old.cap }
{
    // That the keys of the cache differ is told by its length.
    let _len = cache.len();
    let Some((modem, is_gone)) = last_written(cache, writes) else {
        return;
    };
    if is_gone {
        let _gone = cache.pop_lru();
    } else {
        let _is_there = cache.promote(&modem);
    }
}

// The modem of the last entry, and whether the writes change a row of it.
fn last_written(cache: &LruCache<Mac, KeptBody>, writes: &Writes) -> Option<(Mac, bool)>
    ensures { result ≡ option_map (λ entry. (entry.0, is_written writes.now entry))
        (last_entry cache.now.entries) }
{
    let (modem, kept) = cache.peek_lru()?;
    Some((*modem, is_written(writes, *modem, kept)))
}

// Whether the writes change a row of a modem's entry.
fn is_written(writes: &Writes, modem: Mac, kept: &KeptBody) -> bool
    ensures { result ≡ is_written writes.now (modem, kept.now) }
{
    for i in 0..writes.len() {
        if stands_in(key_of(writes.get(i)), modem, kept) {
            return true;
        }
    }
    false
}

// The key that a write changes.
fn key_of(write: &Write) -> Key
    ensures { result ≡ key_written write.now }
{
    match write {
        Write::Put(key, _) => *key,
        Write::Drop(key) => *key,
    }
}

// Whether a row of this key stands in the file of a modem's entry.
fn stands_in(key: Key, modem: Mac, kept: &KeptBody) -> bool
    ensures { result ≡ stands_in key (modem, kept.now) }
{
    match key {
        Key::Modem(mac) => mac == modem,
        Key::Subscriber(number) | Key::AddOn(number, _) => number == kept.subscriber,
        Key::Class(number) => number == kept.class,
        Key::Site | Key::Pool(_) | Key::Lease(_) | Key::Held(_) | Key::Batch(_) => false,
        Key::Hub(_) | Key::PoolHub(_) | Key::DevicePool(_) | Key::Device(_) => false,
    }
}
