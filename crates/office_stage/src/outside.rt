ghost use Rattle.std.specs.Prelude.{◌≡◌};

use crate::kept::Kept;
use crate::wanting::WantingLink;
use off_base::Bytes;
use off_outside::{Calls, Events, Link, MemLink, MemSink, MemSource};
use off_serve::run;
use script_words::Unread;
use std::alloc::Global;

/// What a run works on. It stands in one value, and a run in a function of its own, since a
/// function in which much is live where it may return is slow to prove.
#[derive(Drop)]
pub struct Outside<K> {
    pub link: WantingLink,
    pub keeper: K,
    pub source: MemSource,
    pub out: MemSink,
}

impl<K: Kept + Drop> Outside<K> {
    /// No events, no rows, no bytes and no room.
    pub fn new(alloc: Global) -> Result<Outside<K>, Unread> {
        let link = MemLink::new(alloc, Events::new(alloc), 0, 0, Calls::new(alloc))?;
        let link = WantingLink::new(link, Calls::new(alloc));
        let out = MemSink::new(alloc, 0, Calls::new(alloc))?;
        Ok(Outside {
            link,
            keeper: K::made(alloc, Calls::new(alloc))?,
            source: MemSource::new(alloc, Bytes::new(alloc), Calls::new(alloc)),
            out,
        })
    }
}

/// Runs the program.
pub fn runs<K: Kept>(alloc: Global, words: &[String], outside: &mut Outside<K>) -> u8
    requires { (⟦<WantingLink as Link>⟧.seen outside.old.link).missed ≡ 0 }
{
    run(
        alloc,
        words,
        &mut outside.link,
        &mut outside.keeper,
        &mut outside.source,
        &mut outside.out,
    )
}
