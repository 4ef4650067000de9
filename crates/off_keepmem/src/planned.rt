ghost use Rattle.std.specs.Prelude.{◌≡◌, IfOk};
ghost use Rattle.off_keepmem.specs.Plans.{write_of};
ghost use Rattle.off_keepmem.specs.Puts.{is_put};

use crate::kept_row::KeptRow;
use off_base::NoMemory;
use off_defs::{Key, Write};
use std::alloc::Global;
use std::marker::Model;

/// A write whose row is as it will be kept, so that it's done without memory. Contracts see the
/// write.
#[derive(Drop)]
pub(crate) struct Planned {
    change: Change,
}

/// What a write does.
#[derive(Drop)]
pub(crate) enum Change {
    Put(Key, KeptRow),
    Drop(Key),
}

impl Model for Planned {
    ghost use Rattle.off_defs.specs.declared.writes.Write.{Write};
    ghost use Rattle.off_defs.specs.contracts.writes.Write as write;
    ghost use Rattle.off_keepmem.specs.Plans.{write_of};

    ghost Value = { Write };

    ghost coded = { write.the_row.coded };

    ghost view = { λ p. write_of p.change };
}

impl Planned {
    /// A write that is given away, with its row.
    pub(crate) fn new(alloc: Global, write: Write) -> Result<Planned, NoMemory>
        ensures { IfOk result (λ planned. planned ≡ write) }
    {
        match write {
            Write::Put(key, row) => Ok(Planned {
                change: Change::Put(key, KeptRow::new(alloc, row)?),
            }),
            Write::Drop(key) => Ok(Planned {
                change: Change::Drop(key),
            }),
        }
    }

    /// The same write again, whose row is copied.
    pub(crate) fn copy(alloc: Global, write: &Write) -> Result<Planned, NoMemory>
        ensures { IfOk result (λ planned. planned ≡ write.now) }
    {
        match write {
            Write::Put(key, row) => Ok(Planned {
                change: Change::Put(*key, KeptRow::copy_of(alloc, row)?),
            }),
            Write::Drop(key) => Ok(Planned {
                change: Change::Drop(*key),
            }),
        }
    }

    /// What it does.
    pub(crate) fn into_change(self) -> Change
        ensures { write_of result ≡ self }
    {
        self.change
    }

    /// Whether it puts a row.
    pub(crate) fn puts_a_row(&self) -> bool
        ensures { result ≡ is_put self.now }
    {
        match &self.change {
            Change::Put(_key, _row) => true,
            Change::Drop(_key) => false,
        }
    }
}
