ghost use Rattle.std.specs.Prelude.{◌≡◌};

use crate::kept_row::KeptRow;
use off_defs::Key;
use std::marker::Model;
use std::mem;

/// A key and its row. Contracts see the two as a pair.
#[derive(Drop)]
pub(crate) struct Entry {
    key: Key,
    row: KeptRow,
}

impl Model for Entry {
    ghost use Rattle.std.specs.Coded.{codes};
    ghost use Rattle.off_defs.specs.declared.keys.Key.{Key};
    ghost use Rattle.off_defs.specs.declared.tables.Row.{Row};
    ghost use Rattle.off_defs.specs.contracts.keys.Key as keys;
    ghost use Rattle.off_defs.specs.contracts.tables.Row as rows;

    ghost Value = { Key × Row };

    ghost coded = { Prim.hlevel (codes, keys.the_row.coded, rows.the_row.coded) };

    ghost view = { λ e. (e.key, e.row) };
}

impl Entry {
    /// An entry of this key and row.
    pub(crate) fn new(key: Key, row: KeptRow) -> Entry
        ensures { result ≡ (key, row) }
    {
        Entry { key, row }
    }

    /// Its key.
    pub(crate) fn key(&self) -> &Key
        ensures { result.now ≡ self.now.0 }
    {
        &self.key
    }

    /// Its row.
    pub(crate) fn row(&self) -> &KeptRow
        ensures { result.now ≡ self.now.1 }
    {
        &self.row
    }

    /// Gives the key this row.
    pub(crate) fn replace(&mut self, row: KeptRow)
        ensures { self.new ≡ (self.old.0, row) }
    {
        give_back(mem::replace(&mut self.row, row));
    }
}

// A row whose place another one has taken.
fn give_back(_older: KeptRow) {}
