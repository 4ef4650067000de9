ghost use Rattle.std.specs.Prelude.{◌≡◌, ◌+◌, ◌<◌, ◌≤◌, ◌++◌, [], Some, None, is_some, true};
ghost use Rattle.std.specs.Prelude.{length, take, drop, IfOk, IfSome, vec_len, slice_get};
ghost use Rattle.std.specs.List.{insert};
ghost use Rattle.std.specs.Vec.{vec_capacity};
ghost use Rattle.std.specs.Option.{option_map};
ghost use Rattle.std.specs.Ordering.{is_lt, is_eq, is_gt};
ghost use Rattle.off_keepmem.specs.Entries.{Rises, row_in, next_in, put_entry, but_key};
ghost use Rattle.off_keepmem.specs.Entries.{compared, IsPlace, Parts};
ghost use Rattle.off_keepmem.specs.Entries.{is_in_front, lent_entry};
ghost use Rattle.off_keepmem.specs.Shelves.{starts_by};

use crate::entry::Entry;
use crate::kept_row::KeptRow;
use crate::order::compared;
use off_base::NoMemory;
use off_defs::Key;
use std::alloc::Global;
use std::cmp::Ordering;
use std::marker::Model;

/// How many entries a shelf has room for.
pub(crate) const ROOM: usize = 64;

/// Entries in the order of their keys, with room for 64 from the start. Contracts see the list of
/// them. The first key stands beside them, so that a search among shelves reads no entries.
#[derive(Drop)]
pub(crate) struct Shelf {
    first: Key,
    entries: Vec<Entry>,
}

impl Model for Shelf {
    ghost use Rattle.std.specs.Prelude.{List, ◌≤◌, vec_len};
    ghost use Rattle.std.specs.Vec.{vec_capacity};
    ghost use Rattle.std.specs.Coded.{codes};
    ghost use Rattle.off_defs.specs.declared.keys.Key.{Key};
    ghost use Rattle.off_defs.specs.declared.tables.Row.{Row};
    ghost use Rattle.off_defs.specs.contracts.keys.Key as key;
    ghost use Rattle.off_defs.specs.contracts.tables.Row as row;
    ghost use Rattle.off_keepmem.specs.Shelves.{StartsAt};

    ghost Value = { List (Key × Row) };

    ghost coded = { Prim.hlevel (codes, key.the_row.coded, row.the_row.coded) };

    ghost view = { λ s. s.entries.items };

    ghost invariant = { λ s. StartsAt s.first s.entries.items
        × (vec_len s.entries ≤ 64)
        × (64 ≤ vec_capacity s.entries) };
}

/// An entry whose row is lent.
#[derive(Clone, Copy)]
pub(crate) struct EntryRef<'a> {
    pub(crate) key: Key,
    pub(crate) row: &'a KeptRow,
}

impl Shelf {
    /// An empty shelf.
    pub(crate) fn new(alloc: Global) -> Result<Shelf, NoMemory>
        ensures { IfOk result (λ shelf. shelf ≡ []) }
    {
        match Vec::with_capacity(alloc, ROOM) {
            Ok(entries) => Ok(Shelf {
                first: Key::Site,
                entries,
            }),
            Err(_refused) => Err(NoMemory),
        }
    }

    /// How many entries there are.
    pub(crate) fn len(&self) -> usize
        ensures count { result ≡ length self.now }
        ensures few { result ≤ 64 }
    {
        self.entries.len()
    }

    /// Whether the first entry has this key or one below it.
    #[tactic(auto, using(crate::proofs::EntryLemmas::starts_is))]
    pub(crate) fn starts_by(&self, key: &Key) -> bool
        requires { 0 < length self.now }
        ensures { result ≡ starts_by key.now self.now }
    {
        !is_below(key, &self.first)
    }

    /// Whether a key's entry stands at this place, or would be put there between two others.
    pub(crate) fn fits(&self, key: &Key, place: usize) -> bool
        requires some { 0 < length self.now }
        requires rises { Rises self.now }
        ensures starts { result ≡ true → starts_by key.now self.now ≡ true }
        ensures place { result ≡ true → IsPlace key.now place self.now }
    {
        self.starts_by(key) && is_place(&self.entries, key, place)
    }

    /// How many entries have keys below this one.
    pub(crate) fn place_of(&self, key: &Key) -> usize
        requires { Rises self.now }
        ensures { Parts key.now result self.now }
    {
        place_of(&self.entries, key)
    }

    /// The row of a key, if its entry stands at this place. At a place where the key parts the
    /// entries, `None` means that it has no row.
    #[tactic(auto, using(crate::proofs::EntryLemmas::place_rules))]
    pub(crate) fn get(&self, key: &Key, place: usize) -> Option<&KeptRow>
        requires { Rises self.now }
        ensures row { IfSome result (λ row. row_in key.now self.now ≡ Some row.now) }
        ensures starts { is_some result ≡ true → starts_by key.now self.now ≡ true }
        ensures place { is_some result ≡ true → IsPlace key.now place self.now }
        ensures none { result ≡ None → Parts key.now place self.now
            → row_in key.now self.now ≡ None }
    {
        if is_at(&self.entries, place, key) {
            Some(self.entries[place].row())
        } else {
            None
        }
    }

    /// The first entry behind a key.
    #[tactic(auto, using(crate::proofs::EntryLemmas::place_rules))]
    pub(crate) fn next(&self, key: &Key) -> Option<EntryRef<'_>>
        requires { Rises self.now }
        ensures { option_map lent_entry result ≡ next_in (Some key.now) self.now }
    {
        let place = place_of(&self.entries, key);
        if is_at(&self.entries, place, key) {
            entry_at(&self.entries, place + 1)
        } else {
            entry_at(&self.entries, place)
        }
    }

    /// The first entry.
    pub(crate) fn front(&self) -> Option<EntryRef<'_>>
        ensures { option_map lent_entry result ≡ slice_get self.now 0 }
    {
        entry_at(&self.entries, 0)
    }

    /// Gives the key this row. `place` is how many entries have keys below it.
    #[tactic(auto, using(crate::proofs::EntryLemmas::place_rules))]
    pub(crate) fn put(&mut self, key: Key, row: KeptRow, place: usize)
        requires rises { Rises self.old }
        requires room { length self.old < 64 }
        requires parts { Parts key place self.old }
        ensures entries { self.new ≡ put_entry key row self.old }
        ensures grows { length self.new ≤ length self.old + 1 }
    {
        if is_at(&self.entries, place, &key) {
            self.entries[place].replace(row);
        } else {
            insert_at(&mut self.entries, place, Entry::new(key, row));
            self.first = *self.entries[0].key();
        }
    }

    /// Takes the key's row away, if it has one. `place` is how many entries have keys below it.
    #[tactic(auto, using(crate::proofs::EntryLemmas::place_rules))]
    pub(crate) fn remove(&mut self, key: &Key, place: usize)
        requires rises { Rises self.old }
        requires parts { Parts key.now place self.old }
        ensures entries { self.new ≡ but_key key.now self.old }
        ensures shrinks { length self.new ≤ length self.old }
    {
        if is_at(&self.entries, place, key) {
            let _entry = self.entries.remove(place);
            if let Some(first) = self.entries.first() {
                self.first = *first.key();
            }
        }
    }

    /// Moves the entries from a place on to an empty shelf.
    pub(crate) fn split(&mut self, place: usize, upper: &mut Shelf)
        requires within { 0 < place }
        requires inside { place ≤ length self.old }
        requires empty { upper.old ≡ [] }
        ensures lower { self.new ≡ take place self.old }
        ensures upper { upper.new ≡ drop place self.old }
    {
        move_from(&mut self.entries, place, &mut upper.entries);
        if let Some(first) = upper.entries.first() {
            upper.first = *first.key();
        }
    }

    /// Moves all entries of another shelf behind these.
    pub(crate) fn join(&mut self, other: &mut Shelf)
        requires some { 0 < length self.old }
        requires room { length self.old + length other.old ≤ 64 }
        ensures all { self.new ≡ self.old ++ other.old }
        ensures empty { other.new ≡ [] }
    {
        let _is_done = self.entries.append(&mut other.entries).is_ok();
    }
}

// How many entries have keys below this one.
#[tactic(auto, using(crate::proofs::EntryLemmas::search_rules))]
fn place_of(entries: &Vec<Entry>, key: &Key) -> usize
    requires { Rises entries.now.items }
    ensures { Parts key.now result entries.now.items }
{
    let mut low = 0;
    let mut high = entries.len();
    'search: while low < high {
        let middle = low + (high - low) / 2;
        if is_above(key, entries[middle].key()) {
            low = middle + 1;
        } else {
            high = middle;
        }
    }
    low
}

// Whether the entry at the place has this key, or would stand behind an entry of this key, which
// were put there.
fn is_place(entries: &Vec<Entry>, key: &Key, place: usize) -> bool
    requires { Rises entries.now.items }
    ensures { result ≡ true → IsPlace key.now place entries.now.items }
{
    if place >= entries.len() {
        return false;
    }
    match compared(key, entries[place].key()) {
        Ordering::Equal => true,
        Ordering::Less => place == 0 || is_above(key, entries[place - 1].key()),
        Ordering::Greater => false,
    }
}

// Whether the entry of this key stands at the place.
#[tactic(auto, using(crate::proofs::EntryLemmas::front_rules))]
fn is_at(entries: &Vec<Entry>, place: usize, key: &Key) -> bool
    ensures { result ≡ is_in_front key.now (drop place entries.now.items) }
{
    if place < entries.len() {
        is_same(key, entries[place].key())
    } else {
        false
    }
}

fn is_above(key: &Key, other: &Key) -> bool
    ensures { result ≡ is_gt (compared key.now other.now) }
{
    compared(key, other) == Ordering::Greater
}

fn is_same(key: &Key, other: &Key) -> bool
    ensures { result ≡ is_eq (compared key.now other.now) }
{
    compared(key, other) == Ordering::Equal
}

fn is_below(key: &Key, other: &Key) -> bool
    ensures { result ≡ is_lt (compared key.now other.now) }
{
    compared(key, other) == Ordering::Less
}

// The entry at a place, if there is one.
fn entry_at(entries: &Vec<Entry>, place: usize) -> Option<EntryRef<'_>>
    ensures { option_map lent_entry result ≡ slice_get entries.now.items place }
{
    if place < entries.len() {
        let entry = &entries[place];
        return Some(EntryRef {
            key: *entry.key(),
            row: entry.row(),
        });
    }
    None
}

// Inserts an entry where there is room for it.
fn insert_at(entries: &mut Vec<Entry>, place: usize, entry: Entry)
    requires within { place ≤ vec_len entries.old }
    requires room { vec_len entries.old < vec_capacity entries.old }
    ensures items { entries.new.items ≡ insert entries.old.items place entry }
    ensures len { vec_len entries.new ≡ vec_len entries.old + 1 }
    ensures capacity { vec_capacity entries.old ≤ vec_capacity entries.new }
{
    let _is_done = entries.insert(place, entry).is_ok();
}

// Moves the entries from a place on to the end of a list that has room for them.
fn move_from(entries: &mut Vec<Entry>, place: usize, upper: &mut Vec<Entry>)
    requires inside { place ≤ vec_len entries.old }
    requires room { vec_len upper.old + vec_len entries.old ≤ vec_capacity upper.old + place }
    ensures lower { entries.new.items ≡ take place entries.old.items }
    ensures lower_len { vec_len entries.new ≡ place }
    ensures lower_room { vec_capacity entries.new ≡ vec_capacity entries.old }
    ensures upper { upper.new.items ≡ upper.old.items ++ drop place entries.old.items }
    ensures upper_len { vec_len upper.new + place ≡ vec_len upper.old + vec_len entries.old }
    ensures upper_room { vec_capacity upper.old ≤ vec_capacity upper.new }
{
    for entry in entries.drain(place..) {
        let _is_done = upper.push(entry).is_ok();
    }
}
