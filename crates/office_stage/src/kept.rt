use off_base::Bytes;
use off_keepmem::MemKeeper;
use off_outside::{Calls, Keeper};
use off_rows::KeyBytes;
use script_words::Unread;
use std::alloc::Global;

/// A keeper that a script can be played over.
pub trait Kept: Keeper + Sized {
    /// One with no rows, of which the listed calls fail.
    fn made(alloc: Global, fails: Calls) -> Result<Self, Unread>;

    /// The same with one cell more, which may have any bytes. It has had no calls.
    fn with_cell(self, alloc: Global, ident: KeyBytes, val: Bytes) -> Result<Self, Unread>;

    /// How many calls it has had.
    fn calls(&self) -> u64;

    /// Whether it has seen that a crash would leave other rows than those that were committed.
    fn has_lost(&self) -> bool;
}

impl Kept for MemKeeper {
    fn made(alloc: Global, fails: Calls) -> Result<MemKeeper, Unread> {
        Ok(MemKeeper::new(alloc, fails))
    }

    // It has rows, and no cells.
    fn with_cell(self, _alloc: Global, _ident: KeyBytes, _val: Bytes) -> Result<MemKeeper, Unread> {
        Err(Unread::Words)
    }

    fn calls(&self) -> u64 {
        MemKeeper::calls(self)
    }

    // It isn't asked what a crash leaves.
    fn has_lost(&self) -> bool {
        false
    }
}
