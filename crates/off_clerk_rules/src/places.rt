use off_defs::{ImportKind, Key};

/// What a path names.
#[derive(Clone, Copy)]
pub enum Place {
    /// A row, which is shown there: the path has GET. Two paths may name one row, and have
    /// different methods.
    Row {
        key: Key,
        /// Whether the row may be put there: whether the path has PUT.
        puts: bool,
        /// Whether the row may be removed there: whether the path has DELETE.
        deletes: bool,
    },
    /// An import of many rows, by its number: the path has PUT alone.
    Import {
        kind: ImportKind,
        batch: u64,
    },
}
