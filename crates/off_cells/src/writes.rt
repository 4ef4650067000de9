use off_base::{Bytes, Items};
use off_rows::KeyBytes;

/// One change of cells.
#[derive(Drop)]
pub enum CellWrite {
    /// The key has this value from now on.
    Put(KeyBytes, Bytes),
    /// The key has no value from now on.
    Drop(KeyBytes),
}

/// Changes of cells, in order.
pub type CellWrites = Items<CellWrite>;
