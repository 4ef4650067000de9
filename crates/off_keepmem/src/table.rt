ghost use Rattle.std.specs.Prelude.{◌≡◌, ◌+◌, ◌<◌, ◌≤◌, ◌∷◌, [], Some, None, length, max};
ghost use Rattle.std.specs.Prelude.{min, take, drop, vec_len, slice_index_or, slice_get};
ghost use Rattle.std.specs.Prelude.{OnOk, IfOk, IfSome};
ghost use Rattle.std.specs.List.{All, insert};
ghost use Rattle.std.specs.Vec.{vec_capacity};
ghost use Rattle.std.specs.Option.{option_map};
ghost use Rattle.off_keepmem.specs.Entries.{Rises, row_in, next_in, put_entry, but_key};
ghost use Rattle.off_keepmem.specs.Entries.{AreBelow, AreAbove, Parts, lent_entry};
ghost use Rattle.off_keepmem.specs.Entries.{entries_written, rows_after};
ghost use Rattle.off_keepmem.specs.Shelves.{entries_on, IsStocked, ShelvesHeld, cut_at};
ghost use Rattle.off_keepmem.specs.Puts.{puts_in};

use crate::hints::{Hints, Spot};
use crate::kept_row::KeptRow;
use crate::planned::{Change, Planned};
use crate::shelf::{EntryRef, ROOM, Shelf};
use off_base::NoMemory;
use off_defs::{Key, Row};
use std::alloc::Global;
use std::marker::Model;

/// A full shelf that is split keeps so many entries at least, and so many at most.
const FEWEST_KEPT: usize = ROOM / 2;

const MOST_KEPT: usize = ROOM - 2;

/// So many empty shelves stay in stock at most.
const STOCK_KEPT: usize = 8;

/// Entries in the order of their keys, on shelves. Contracts see the list of them, and how many
/// empty shelves are in stock: a put takes one at most.
#[derive(Drop)]
pub(crate) struct Table {
    shelves: Vec<Shelf>,
    stock: Vec<Shelf>,
    hints: Hints,
}

impl Model for Table {
    ghost use Rattle.std.specs.Prelude.{vec_len};
    ghost use Rattle.std.specs.Vec.{vec_capacity};
    ghost use Rattle.std.specs.Coded.{codes};
    ghost use Rattle.off_defs.specs.contracts.keys.Key as key;
    ghost use Rattle.off_defs.specs.contracts.tables.Row as row;
    ghost use Rattle.off_keepmem.specs.Shelves.{TableHeld, ShelvesHeld, entries_on};

    ghost Value = { TableHeld };

    ghost coded = { Prim.hlevel (codes, key.the_row.coded, row.the_row.coded) };

    ghost view = { λ t. record { entries = entries_on t.shelves.items; spare = vec_len t.stock } };

    ghost invariant = { λ t.
        ShelvesHeld t.shelves.items t.stock.items (vec_capacity t.shelves) };
}

impl Table {
    /// No entries, and no stock. It takes no memory.
    pub(crate) fn new(alloc: Global) -> Table
        ensures { result ≡ record { entries = []; spare = 0 } }
    {
        Table {
            shelves: Vec::new(alloc),
            stock: Vec::new(alloc),
            hints: Hints::new(alloc),
        }
    }

    /// Takes memory until there are `wanted` empty shelves. None is given back, also after
    /// `NoMemory`.
    pub(crate) fn reserve(&mut self, alloc: Global, wanted: usize) -> Result<(), NoMemory>
        ensures entries { self.new.entries ≡ self.old.entries }
        ensures enough { OnOk result (wanted ≤ self.new.spare) }
        ensures kept { self.old.spare ≤ self.new.spare }
        ensures most { self.new.spare ≤ max self.old.spare wanted }
    {
        if self.stock.len() >= wanted {
            return Ok(());
        }
        let Ok(()) = self.shelves.try_reserve(wanted) else {
            return Err(NoMemory);
        };
        self.hints.grow(alloc, self.shelves.len());
        fill(alloc, &mut self.stock, wanted)
    }

    /// The row of a key, again. Where it stands is remembered for the next look.
    #[tactic(auto, using(crate::proofs::ShelfLemmas::look_rules))]
    pub(crate) fn look(&mut self, alloc: Global, key: &Key) -> Result<Option<Row>, NoMemory>
        requires { Rises self.old.entries }
        ensures row { IfOk result (λ row. row ≡ row_in key.now self.old.entries) }
        ensures same { self.new ≡ self.old }
    {
        let slot = self.hints.slot_of(key);
        let near = self.hints.get(slot);
        if let Some(row) = row_at(&self.shelves, key, near) {
            return Ok(Some(row.copy(alloc)?));
        }
        if self.shelves.is_empty() {
            return Ok(None);
        }
        let spot = spot_of(&self.shelves, key, near);
        self.hints.put(slot, spot);
        match self.shelves[spot.shelf].get(key, spot.place) {
            Some(row) => Ok(Some(row.copy(alloc)?)),
            None => Ok(None),
        }
    }

    /// The first entry behind a place of a walk.
    #[tactic(auto, using(crate::proofs::ShelfLemmas::next_front))]
    pub(crate) fn next(&self, place: Option<Key>) -> Option<EntryRef<'_>>
        requires { Rises self.now.entries }
        ensures { option_map lent_entry result ≡ next_in place self.now.entries }
    {
        match place {
            Some(key) => self.behind(&key),
            None => front_of(&self.shelves, 0),
        }
    }

    /// The first entry behind a key.
    #[tactic(auto, using(crate::proofs::ShelfLemmas::look_rules))]
    fn behind(&self, key: &Key) -> Option<EntryRef<'_>>
        requires { Rises self.now.entries }
        ensures { option_map lent_entry result ≡ next_in (Some key.now) self.now.entries }
    {
        if self.shelves.is_empty() {
            return None;
        }
        let at = shelf_of(&self.shelves, key);
        match self.shelves[at].next(key) {
            Some(entry) => Some(entry),
            None => front_of(&self.shelves, at + 1),
        }
    }

    /// Gives the key this row.
    pub(crate) fn put(&mut self, key: Key, row: KeptRow)
        requires room { 0 < self.old.spare }
        requires rises { Rises self.old.entries }
        ensures entries { self.new.entries ≡ put_entry key row self.old.entries }
        ensures spent { self.old.spare ≤ self.new.spare + 1 }
    {
        if self.shelves.is_empty() {
            begin(&mut self.shelves, &mut self.stock, key, row);
        } else {
            put_on(
                &mut self.shelves,
                &mut self.stock,
                &mut self.hints,
                key,
                row,
            );
        }
    }

    /// Takes the key's row away, if it has one.
    #[tactic(auto, using(crate::proofs::ShelfLemmas::none_rules))]
    pub(crate) fn remove(&mut self, key: &Key)
        requires { Rises self.old.entries }
        ensures entries { self.new.entries ≡ but_key key.now self.old.entries }
        ensures spare { self.new.spare ≡ self.old.spare }
    {
        if !self.shelves.is_empty() {
            remove_from(&mut self.shelves, &self.hints, key);
        }
    }

    /// Does one write.
    #[tactic(auto, using(crate::proofs::ShelfLemmas::write_rules))]
    fn write(&mut self, write: Planned)
        requires room { puts_in (write ∷ []) ≤ self.old.spare }
        requires rises { Rises self.old.entries }
        ensures entries { self.new.entries ≡ entries_written self.old.entries write }
        ensures rises { Rises self.new.entries }
        ensures spent { self.old.spare ≤ self.new.spare + puts_in (write ∷ []) }
    {
        match write.into_change() {
            Change::Put(key, row) => self.put(key, row),
            Change::Drop(key) => self.remove(&key),
        }
    }

    /// Does writes in order.
    pub(crate) fn write_all(&mut self, writes: Vec<Planned>)
        requires room { puts_in writes.items ≤ self.old.spare }
        requires rises { Rises self.old.entries }
        ensures entries { self.new.entries ≡ rows_after self.old.entries writes.items }
        ensures rises { Rises self.new.entries }
        ensures spent { self.old.spare ≤ self.new.spare + puts_in writes.items }
    {
        for write in writes {
            self.write(write);
        }
    }

    /// Gives back all empty shelves but eight.
    pub(crate) fn trim(&mut self)
        ensures entries { self.new.entries ≡ self.old.entries }
        ensures spare { self.new.spare ≡ min self.old.spare 8 }
    {
        self.stock.truncate(STOCK_KEPT);
    }
}

// Takes memory until there are so many empty shelves.
fn fill(alloc: Global, stock: &mut Vec<Shelf>, wanted: usize) -> Result<(), NoMemory>
    requires { All (λ shelf. shelf ≡ []) stock.old.items }
    ensures empty { All (λ shelf. shelf ≡ []) stock.new.items }
    ensures enough { OnOk result (wanted ≤ vec_len stock.new) }
    ensures kept { vec_len stock.old ≤ vec_len stock.new }
    ensures most { vec_len stock.new ≤ max (vec_len stock.old) wanted }
{
    'fill: while stock.len() < wanted {
        let fresh = Shelf::new(alloc)?;
        let Ok(()) = stock.push(fresh) else {
            return Err(NoMemory);
        };
    }
    Ok(())
}

// The shelf on which a key's entry stands, or is to be put: all in front of it have keys below, and
// all behind it keys above.
#[tactic(auto, using(crate::proofs::ShelfLemmas::search_rules))]
fn shelf_of(shelves: &Vec<Shelf>, key: &Key) -> usize
    requires some { 0 < vec_len shelves.now }
    requires rises { Rises (entries_on shelves.now.items) }
    requires stocked { All IsStocked shelves.now.items }
    ensures within { result < vec_len shelves.now }
    ensures front { AreBelow key.now (entries_on (take result shelves.now.items)) }
    ensures behind { AreAbove key.now (entries_on (drop (result + 1) shelves.now.items)) }
{
    let mut low = 0;
    let mut high = shelves.len();
    'search: while low + 1 < high {
        let middle = low + (high - low) / 2;
        if shelves[middle].starts_by(key) {
            low = middle;
        } else {
            high = middle;
        }
    }
    low
}

// Where a key's entry stands, or is to be put. It looks at `near` first, and searches else.
fn spot_of(shelves: &Vec<Shelf>, key: &Key, near: Spot) -> Spot
    requires some { 0 < vec_len shelves.now }
    requires rises { Rises (entries_on shelves.now.items) }
    requires stocked { All IsStocked shelves.now.items }
    ensures within { result.shelf < vec_len shelves.now }
    ensures front { AreBelow key.now (entries_on (take result.shelf shelves.now.items)) }
    ensures behind { AreAbove key.now (entries_on (drop (result.shelf + 1) shelves.now.items)) }
    ensures parts { Parts key.now result.place
        (slice_index_or shelves.now.items result.shelf []) }
{
    if near.shelf < shelves.len() {
        if shelves[near.shelf].fits(key, near.place) {
            return near;
        }
    }
    let shelf = shelf_of(shelves, key);
    let place = shelves[shelf].place_of(key);
    Spot { shelf, place }
}

// The row of a key, if its entry stands at this spot. `None` says nothing of the key.
fn row_at<'a>(shelves: &'a Vec<Shelf>, key: &Key, spot: Spot) -> Option<&'a KeptRow>
    requires rises { Rises (entries_on shelves.now.items) }
    requires stocked { All IsStocked shelves.now.items }
    ensures { IfSome result
        (λ row. row_in key.now (entries_on shelves.now.items) ≡ Some row.now) }
{
    if spot.shelf < shelves.len() {
        shelves[spot.shelf].get(key, spot.place)
    } else {
        None
    }
}

// The first entry of a shelf, if there is such a shelf.
#[tactic(auto, using(crate::proofs::ShelfLemmas::front_rules))]
fn front_of(shelves: &Vec<Shelf>, at: usize) -> Option<EntryRef<'_>>
    requires { All IsStocked shelves.now.items }
    ensures { option_map lent_entry result
        ≡ slice_get (entries_on (drop at shelves.now.items)) 0 }
{
    if at < shelves.len() {
        shelves[at].front()
    } else {
        None
    }
}

// Puts the first entry of all.
#[tactic(auto, using(crate::proofs::ShelfLemmas::begin_rules))]
fn begin(shelves: &mut Vec<Shelf>, stock: &mut Vec<Shelf>, key: Key, row: KeptRow)
    requires none { vec_len shelves.old ≡ 0 }
    requires some { 0 < vec_len stock.old }
    requires held { ShelvesHeld shelves.old.items stock.old.items (vec_capacity shelves.old) }
    ensures entries { entries_on shelves.new.items
        ≡ put_entry key row (entries_on shelves.old.items) }
    ensures spent { vec_len stock.new + 1 ≡ vec_len stock.old }
    ensures held { ShelvesHeld shelves.new.items stock.new.items (vec_capacity shelves.new) }
{
    let mut fresh = take_empty(stock);
    fresh.put(key, row, 0);
    insert_shelf(shelves, 0, fresh);
}

// Gives the key this row, on one of the shelves.
#[tactic(auto, using(crate::proofs::ShelfLemmas::put_rules))]
fn put_on(
    shelves: &mut Vec<Shelf>,
    stock: &mut Vec<Shelf>,
    hints: &mut Hints,
    key: Key,
    row: KeptRow,
)
    requires used { 0 < vec_len shelves.old }
    requires some { 0 < vec_len stock.old }
    requires rises { Rises (entries_on shelves.old.items) }
    requires held { ShelvesHeld shelves.old.items stock.old.items (vec_capacity shelves.old) }
    ensures entries { entries_on shelves.new.items
        ≡ put_entry key row (entries_on shelves.old.items) }
    ensures spent { vec_len stock.old ≤ vec_len stock.new + 1 }
    ensures held { ShelvesHeld shelves.new.items stock.new.items (vec_capacity shelves.new) }
{
    let slot = hints.slot_of(&key);
    let spot = spot_of(shelves, &key, hints.get(slot));
    hints.put(slot, spot);
    shelves[spot.shelf].put(key, row, spot.place);
    if shelves[spot.shelf].len() == ROOM {
        split(shelves, stock, spot.shelf, cut_for(spot.place));
    }
}

// How many entries a full shelf keeps, of which the newest stands at a place: those up to it. So
// rows that come in the order of their keys, as at a start and in an import, leave full shelves
// behind them, also where the rows of other kinds stand behind theirs.
fn cut_for(place: usize) -> usize
    requires { place ≤ 64 }
    ensures some { 0 < result }
    ensures fewer { result < 64 }
{
    (place + 1).max(FEWEST_KEPT).min(MOST_KEPT)
}

// Moves the entries of a full shelf from a place on to an empty one behind it.
#[tactic(auto, using(crate::proofs::ShelfLemmas::split_rules))]
fn split(shelves: &mut Vec<Shelf>, stock: &mut Vec<Shelf>, at: usize, cut: usize)
    requires inside { at < vec_len shelves.old }
    requires lower { 0 < cut }
    requires upper { cut < length (slice_index_or shelves.old.items at []) }
    requires room { vec_len shelves.old < vec_capacity shelves.old }
    requires some { 0 < vec_len stock.old }
    requires empty { All (λ shelf. shelf ≡ []) stock.old.items }
    ensures shelves { shelves.new.items ≡ cut_at at cut shelves.old.items }
    ensures len { vec_len shelves.new ≡ vec_len shelves.old + 1 }
    ensures room { vec_capacity shelves.old ≤ vec_capacity shelves.new }
    ensures spent { vec_len stock.new + 1 ≡ vec_len stock.old }
    ensures empty { All (λ shelf. shelf ≡ []) stock.new.items }
{
    let mut upper = take_empty(stock);
    shelves[at].split(cut, &mut upper);
    insert_shelf(shelves, at + 1, upper);
}

// Takes an empty shelf out of the stock.
#[tactic(auto, using(crate::proofs::ShelfLemmas::stock_rules))]
fn take_empty(stock: &mut Vec<Shelf>) -> Shelf
    requires some { 0 < vec_len stock.old }
    requires empty { All (λ shelf. shelf ≡ []) stock.old.items }
    ensures shelf { result ≡ [] }
    ensures spent { vec_len stock.new + 1 ≡ vec_len stock.old }
    ensures empty { All (λ shelf. shelf ≡ []) stock.new.items }
{
    let Some(shelf) = stock.pop() else {
        unreachable!()
    };
    shelf
}

// Inserts a shelf where the list has room for it.
fn insert_shelf(shelves: &mut Vec<Shelf>, at: usize, shelf: Shelf)
    requires within { at ≤ vec_len shelves.old }
    requires room { vec_len shelves.old < vec_capacity shelves.old }
    ensures items { shelves.new.items ≡ insert shelves.old.items at shelf }
    ensures len { vec_len shelves.new ≡ vec_len shelves.old + 1 }
    ensures room { vec_capacity shelves.old ≤ vec_capacity shelves.new }
{
    let _is_done = shelves.insert(at, shelf).is_ok();
}

// Takes the key's row away from its shelf. A shelf that gets empty goes, and neighbours that fill
// half of one at most are joined.
#[tactic(auto, using(crate::proofs::ShelfLemmas::cut_rules))]
fn remove_from(shelves: &mut Vec<Shelf>, hints: &Hints, key: &Key)
    requires used { 0 < vec_len shelves.old }
    requires rises { Rises (entries_on shelves.old.items) }
    requires stocked { All IsStocked shelves.old.items }
    ensures entries { entries_on shelves.new.items
        ≡ but_key key.now (entries_on shelves.old.items) }
    ensures stocked { All IsStocked shelves.new.items }
    ensures len { vec_len shelves.new ≤ vec_len shelves.old }
    ensures room { vec_capacity shelves.old ≤ vec_capacity shelves.new }
{
    let spot = spot_of(shelves, key, hints.get(hints.slot_of(key)));
    shelves[spot.shelf].remove(key, spot.place);
    if shelves[spot.shelf].len() == 0 {
        let _emptied = shelves.remove(spot.shelf);
    } else {
        join(shelves, spot.shelf);
        if spot.shelf > 0 {
            join(shelves, spot.shelf - 1);
        }
    }
}

// Joins a shelf and the next one, where both together fill half of one at most.
#[tactic(auto, using(crate::proofs::ShelfLemmas::join_rules))]
fn join(shelves: &mut Vec<Shelf>, at: usize)
    requires inside { at < vec_len shelves.old }
    requires stocked { All IsStocked shelves.old.items }
    ensures entries { entries_on shelves.new.items ≡ entries_on shelves.old.items }
    ensures stocked { All IsStocked shelves.new.items }
    ensures len { vec_len shelves.new ≤ vec_len shelves.old }
    ensures fewer { vec_len shelves.old ≤ vec_len shelves.new + 1 }
    ensures room { vec_capacity shelves.old ≤ vec_capacity shelves.new }
{
    if at + 1 >= shelves.len() {
        return;
    }
    if shelves[at].len() + shelves[at + 1].len() > ROOM / 2 {
        return;
    }
    let mut next = shelves.remove(at + 1);
    shelves[at].join(&mut next);
}
