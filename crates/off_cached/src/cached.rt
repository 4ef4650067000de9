//! A store whose rows are read once.

ghost use Rattle.off_outside.specs.KeeperCalls.{Commits, WasCounted};
ghost use Rattle.off_cached.specs.Cached.{cached_seen, store_of, BeginsOver};
ghost use Rattle.off_cached.specs.CachedLaws.{one_cached, cached_rests};

use crate::reading::read_rows;
use crate::whole::Whole;
use off_defs::{Key, Row, Writes};
use off_outside::{Failed, KeepErr, Keeper};
use std::alloc::Global;

/// A keeper over a store, with the store's rows in memory where all of them could be read.
#[derive(Drop)]
pub enum Cached<K> {
    /// They are in memory.
    Whole(Whole<K>),
    /// They couldn't be read, for want of memory or since the store failed: each call is the
    /// store's.
    Store(K),
}

impl<K: Keeper> Cached<K> {
    /// Reads all rows of a store, by one walk.
    pub fn over(alloc: Global, store: K) -> Cached<K>
        ensures { BeginsOver K.seen (K.seen store) result }
    {
        let mut store = store;
        match read_rows(alloc, &mut store) {
            Ok(rows) => Cached::Whole(Whole {
                store,
                rows,
                calls: 0,
                commits: 0,
            }),
            Err(_unread) => Cached::Store(store),
        }
    }
}

impl<K: Keeper> Keeper for Cached<K> {
    ghost seen = { λ s. cached_seen K.seen s };

    fn get(&mut self, alloc: Global, key: &Key) -> Result<Option<Row>, KeepErr> {
        match self {
            Cached::Whole(whole) => whole.get(alloc, key),
            Cached::Store(store) => store.get(alloc, key),
        }
    }

    fn next(&mut self, alloc: Global, after: Option<&Key>) -> Result<Option<(Key, Row)>, KeepErr> {
        match self {
            Cached::Whole(whole) => whole.next(alloc, after),
            Cached::Store(store) => store.next(alloc, after),
        }
    }

    fn commit(&mut self, alloc: Global, writes: &Writes) -> Result<(), KeepErr>
        ensures told { Commits result (cached_seen K.seen self.old) (cached_seen K.seen self.new)
            writes.now }
        ensures counted { WasCounted (cached_seen K.seen self.old) (cached_seen K.seen self.new) }

        // What is answered is what the store did, too.
        ensures stored { Commits result (K.seen (store_of self.old)) (K.seen (store_of self.new))
            writes.now }
    {
        match self {
            Cached::Whole(whole) => whole.commit(alloc, writes),
            Cached::Store(store) => store.commit(alloc, writes),
        }
    }

    fn stage(&mut self, alloc: Global, writes: &Writes) -> Result<(), KeepErr> {
        match self {
            Cached::Whole(whole) => whole.stage(alloc, writes),
            Cached::Store(store) => store.stage(alloc, writes),
        }
    }

    fn secure(&mut self) -> Result<(), Failed> {
        match self {
            Cached::Whole(whole) => whole.secure(),
            Cached::Store(store) => store.secure(),
        }
    }

    fn waits(&self) -> bool {
        match self {
            Cached::Whole(whole) => whole.waits(),
            Cached::Store(store) => store.waits(),
        }
    }

    fn moment(&self) -> u64 {
        match self {
            Cached::Whole(whole) => whole.moment(),
            Cached::Store(store) => store.moment(),
        }
    }

    ghost one_tables = { λ s. one_cached K.seen K.one_tables s };

    ghost rests = { λ s. cached_rests K.seen K.rests s };
}
