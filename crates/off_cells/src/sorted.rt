ghost use Rattle.std.specs.Prelude.{◌≡◌, ℕ, ◌+◌, ◌<◌, ◌≤◌, List, drop, vec_len, slice_get, OnOk};
ghost use Rattle.std.specs.List.{insert, find as first_of_all};
ghost use Rattle.std.specs.Option.{option_map};
ghost use Rattle.std.specs.Vec.{vec_capacity};
ghost use Rattle.std.specs.Ordering.{nat_cmp, is_gt, is_eq};
ghost use Rattle.std.specs.Cmp.Lexicographic.{slice_cmp};
ghost use Rattle.std.specs.FinMap as map;
ghost use Rattle.off_cells.specs.CellsSeen.{cell_at, next_cell, is_behind};
ghost use Rattle.off_cells.specs.SortedCells.{place_of, is_in_front};

use off_base::{Bytes, NoMemory};
use off_rows::KeyBytes;
use std::alloc::Global;
use std::cmp::Ordering;
use std::marker::Model;

/// Cells in the order of their keys, in one vector. Contracts see the map, and for how many more
/// there is room.
#[derive(Drop)]
pub(crate) struct Sorted {
    cells: Vec<(KeyBytes, Bytes)>,
}

impl Model for Sorted {
    ghost use Rattle.std.specs.Prelude.{◌-◌, vec_len};
    ghost use Rattle.std.specs.Vec.{vec_capacity};
    ghost use Rattle.std.specs.FinMap as map;
    ghost use Rattle.off_cells.specs.SortedCells.{SortedHeld, sorted_code, AreInOrder};

    ghost Value = { SortedHeld };

    ghost coded = { sorted_code };

    ghost view = { λ s. record {
      cells = map.from_sorted s.cells.items;
      room = vec_capacity s.cells - vec_len s.cells;
    } };

    ghost invariant = { λ s. AreInOrder s.cells.items };
}

impl Sorted {
    /// No cells. It takes no memory.
    #[tactic(auto, using(crate::proofs::SortedLemmas::none_kept))]
    pub(crate) fn new(alloc: Global) -> Sorted
        ensures { result.cells ≡ map.empty }
    {
        Sorted {
            cells: Vec::new(alloc),
        }
    }

    /// Makes room for so many more cells. After `NoMemory` the cells are as before.
    pub(crate) fn reserve(&mut self, more: usize) -> Result<(), NoMemory>
        ensures room { OnOk result (more ≤ self.new.room) }
        ensures cells { self.new.cells ≡ self.old.cells }
    {
        match self.cells.reserve(more) {
            Ok(()) => Ok(()),
            Err(_refused) => Err(NoMemory),
        }
    }

    /// The cell of a key.
    pub(crate) fn find(&self, key: KeyBytes) -> Option<&(KeyBytes, Bytes)>
        ensures { option_map (λ cell. cell.now.1) result ≡ cell_at self.now.cells key }
    {
        let place = place_of(&self.cells, key);
        if is_at(&self.cells, place, key) {
            return Some(&self.cells[place]);
        }
        None
    }

    /// The next cell of a walk.
    pub(crate) fn next(&self, place: Option<KeyBytes>) -> Option<&(KeyBytes, Bytes)>
        ensures { option_map (λ cell. cell.now) result ≡ next_cell place self.now.cells }
    {
        let at = first_behind(&self.cells, &place);
        if at < self.cells.len() {
            return Some(&self.cells[at]);
        }
        None
    }

    /// Gives the key this value. There has to be room for one more.
    pub(crate) fn put(&mut self, key: KeyBytes, val: Bytes)
        requires { 0 < self.old.room }
        ensures cells { self.new.cells ≡ map.insert self.old.cells key val }
        ensures room { self.old.room ≤ self.new.room + 1 }
    {
        let place = place_of(&self.cells, key);
        if is_at(&self.cells, place, key) {
            self.cells[place].1 = val;
        } else {
            insert_at(&mut self.cells, place, (key, val));
        }
    }

    /// Takes the key's value away.
    pub(crate) fn remove(&mut self, key: KeyBytes)
        ensures cells { self.new.cells ≡ map.remove self.old.cells key }
        ensures room { self.old.room ≤ self.new.room }
    {
        let place = place_of(&self.cells, key);
        if is_at(&self.cells, place, key) {
            let _removed = self.cells.remove(place);
        }
    }
}

// Where a key's cell stands, or is to be put.
fn place_of(cells: &Vec<(KeyBytes, Bytes)>, key: KeyBytes) -> usize
    ensures place { result ≡ place_of key cells.now.items }
    ensures within { result ≤ vec_len cells.now }
{
    let mut place = 0;
    'places: while place < cells.len() && is_above(key, cells[place].0) {
        place += 1;
    }
    place
}

// Where the first cell behind a place of a walk stands: past the end, if there is none.
fn first_behind(cells: &Vec<(KeyBytes, Bytes)>, place: &Option<KeyBytes>) -> usize
    ensures { slice_get cells.now.items result
        ≡ first_of_all (is_behind place.now) cells.now.items }
{
    let mut at = 0;
    'cells: while at < cells.len() && !lies_behind(place, cells[at].0) {
        at += 1;
    }
    at
}

// Whether the key's own cell stands at the place.
fn is_at(cells: &Vec<(KeyBytes, Bytes)>, place: usize, key: KeyBytes) -> bool
    ensures { result ≡ is_in_front key (drop place cells.now.items) }
{
    place < cells.len() && is_same(key, cells[place].0)
}

// Inserts a cell where there is room for it.
fn insert_at(cells: &mut Vec<(KeyBytes, Bytes)>, place: usize, cell: (KeyBytes, Bytes))
    requires within { place ≤ vec_len cells.old }
    requires room { vec_len cells.old < vec_capacity cells.old }
    ensures items { cells.new.items ≡ insert cells.old.items place cell }
    ensures len { vec_len cells.new ≡ vec_len cells.old + 1 }
    ensures capacity { vec_capacity cells.old ≤ vec_capacity cells.new }
{
    let _is_done = cells.insert(place, cell).is_ok();
}

fn is_above(key: KeyBytes, other: KeyBytes) -> bool
    ensures { result ≡ is_gt (slice_cmp nat_cmp key other) }
{
    key.as_slice().cmp(other.as_slice()) == Ordering::Greater
}

fn is_same(key: KeyBytes, other: KeyBytes) -> bool
    ensures { result ≡ is_eq (slice_cmp nat_cmp key other) }
{
    key.as_slice().cmp(other.as_slice()) == Ordering::Equal
}

fn lies_behind(place: &Option<KeyBytes>, ident: KeyBytes) -> bool
    ensures { (val : List ℕ) → result ≡ is_behind place.now (ident, val) }
{
    match place {
        Some(key) => key.as_slice().cmp(ident.as_slice()) == Ordering::Less,
        None => true,
    }
}
