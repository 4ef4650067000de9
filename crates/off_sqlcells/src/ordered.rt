ghost use Rattle.std.specs.Prelude.{IsTrue};
ghost use Rattle.off_sqlcells.specs.InOrder.{IsInOrder, memory_in_order, files_in_order};

use sqlite::{Alter, FileStore, MemStore};
use sqlite_disk::Disk;

/// A store whose committed trees are in order, whatever has become of a transaction on it. So no
/// two rows of a table have one rowid.
pub trait Ordered: Alter {
    ghost in_order: { (s : Self) → IsTrue (Self.Store.view s).is_open
        → IsInOrder (Self.Store.view s) };
}

impl Ordered for MemStore {
    ghost in_order = { memory_in_order };
}

impl<D: Disk> Ordered for FileStore<D> {
    ghost in_order = { λ it. files_in_order it };
}
