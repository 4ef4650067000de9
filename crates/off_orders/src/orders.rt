use crate::shown::ShownRow;
use off_base::{Items, Mac};
use off_defs::{Class, ImportKind, Key, Modem, Pool, SharedSettings, Site, Subscriber};

/// One row of an import.
#[derive(Drop)]
pub enum ImportRow {
    /// The subscriber of this number.
    Subscriber(u32, Subscriber),
    /// The modem of this hardware address.
    Modem(Mac, Modem),
}

/// The rows of an import, in order.
pub type ImportRows = Items<ImportRow>;

/// What a clerk wants done.
#[derive(Drop)]
pub enum Command {
    /// Puts the hub of this number.
    PutHub(u32, Site),
    /// Puts the subscriber of this number.
    PutSubscriber(u32, Subscriber),
    /// Puts an add-on: the subscriber's number, the add-on's own, and its settings.
    PutAddOn(u32, u8, SharedSettings),
    /// Puts the modem of this hardware address.
    PutModem(Mac, Modem),
    /// Puts the class of this number.
    PutClass(u32, Class),
    /// Puts the pool of this number, and the number of its hub.
    PutPool(u32, Pool, u32),
    /// Puts the pool for devices of this number.
    PutDevicePool(u32, Pool),
    /// Removes the row of a key.
    Remove(Key),
    /// Shows the row of a key.
    Show(Key),
    /// Puts many rows, all or none of them.
    Import {
        kind: ImportKind,
        /// The import's number.
        batch: u64,
        /// The MD5 digest (RFC 1321) of its body.
        digest: [u8; 16],
        rows: ImportRows,
    },
}

/// What a clerk is answered where the command was done.
#[derive(Drop)]
pub enum Reply {
    Done,
    /// The row of the key, but for a pool.
    Shown(Key, ShownRow),
    /// The pool of this number, with the number of its hub.
    ShownPool { pool: u32, row: Pool, hub: u32 },
    /// How many rows the import put.
    Rows(u32),
}
