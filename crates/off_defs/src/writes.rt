use crate::keys::Key;
use crate::tables::Row;
use off_base::Items;

/// One change of the tables.
#[derive(Drop)]
pub enum Write {
    /// The key has this row from now on.
    Put(Key, Row),
    /// The key has no row from now on.
    Drop(Key),
}

/// Changes of the tables, in order.
pub type Writes = Items<Write>;
