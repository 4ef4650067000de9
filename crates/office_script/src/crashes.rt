use off_defs::{Key, Row, Write, Writes};
use off_journal::JournalKeeper;
use off_keepmem::MemKeeper;
use off_memdisk::MemDisk;
use off_outside::{Calls, Keeper};
use script_words::{Page, Unread, show_row};
use std::alloc::Global;

/// What a crash may leave of a disk, and whether it would have left something else: each image that
/// the disk picks opens as the tables of the commits that were done, or as these with one commit
/// more, which was refused behind them.
#[derive(Drop)]
pub struct Crashes {
    // The tables of the commits that were done, and their rows printed.
    done: MemKeeper,
    rows: Page,
    // The rows printed, had a commit been done that was refused since.
    refused: Vec<Page>,
    has_lost: bool,
}

// How many images the disk picks.
const PICKS: u64 = 8;

impl Crashes {
    /// No commits yet.
    pub fn new(alloc: Global) -> Crashes {
        Crashes {
            done: MemKeeper::new(alloc, Calls::new(alloc)),
            rows: Page::new(alloc),
            refused: Vec::new(alloc),
            has_lost: false,
        }
    }

    /// Whether a crash would have left other tables.
    pub fn has_lost(&self) -> bool {
        self.has_lost
    }

    /// Says that other tables were left, where it can't be told.
    pub fn give_up(&mut self) {
        self.has_lost = true;
    }

    /// Takes a commit, and opens what a crash may leave behind it.
    pub fn take(
        &mut self,
        alloc: Global,
        disk: &MemDisk,
        writes: &Writes,
        is_done: bool,
    ) -> Result<(), Unread> {
        if is_done {
            self.advance(alloc, writes)?;
        } else {
            self.refuse(alloc, writes)?;
        }
        self.open_each(alloc, disk)
    }

    // Takes a commit that was done.
    fn advance(&mut self, alloc: Global, writes: &Writes) -> Result<(), Unread> {
        commit(alloc, &mut self.done, writes)?;
        self.refused = Vec::new(alloc);
        self.rows = printed(alloc, &mut self.done)?;
        Ok(())
    }

    // Takes a commit that was refused.
    fn refuse(&mut self, alloc: Global, writes: &Writes) -> Result<(), Unread> {
        let mut other = copied(alloc, &mut self.done)?;
        let rows = printed_behind(alloc, &mut other, writes)?;
        push_page(&mut self.refused, rows)
    }

    // Opens each image.
    fn open_each(&mut self, alloc: Global, disk: &MemDisk) -> Result<(), Unread> {
        for pick in 0..PICKS {
            self.open(alloc, disk, pick)?;
        }
        Ok(())
    }

    fn open(&mut self, alloc: Global, disk: &MemDisk, pick: u64) -> Result<(), Unread> {
        let image = disk.crash(alloc, pick)?;
        let found = opened(alloc, image)?;
        if !self.may_leave(&found) {
            self.has_lost = true;
        }
        Ok(())
    }

    // Whether a crash may leave tables that are printed so; `None` where they don't open.
    fn may_leave(&self, found: &Option<Page>) -> bool {
        match found {
            Some(rows) => is_same(rows, &self.rows) || is_one_of(rows, &self.refused),
            None => false,
        }
    }
}

fn is_same(rows: &Page, others: &Page) -> bool {
    rows.as_slice() == others.as_slice()
}

fn is_one_of(rows: &Page, pages: &[Page]) -> bool {
    for page in pages {
        if is_same(rows, page) {
            return true;
        }
    }
    false
}

fn push_page(pages: &mut Vec<Page>, page: Page) -> Result<(), Unread> {
    match pages.push(page) {
        Ok(()) => Ok(()),
        Err(_refused) => Err(Unread::Memory),
    }
}

fn commit(alloc: Global, keeper: &mut MemKeeper, writes: &Writes) -> Result<(), Unread> {
    match keeper.commit(alloc, writes) {
        Ok(()) => Ok(()),
        Err(_failed) => Err(Unread::Memory),
    }
}

// The rows of an image, printed, or `None` where it's no journal.
fn opened(alloc: Global, image: MemDisk) -> Result<Option<Page>, Unread> {
    match JournalKeeper::begin(alloc, image) {
        Ok(opened) => found(alloc, opened),
        Err(_unopened) => Ok(None),
    }
}

fn found(alloc: Global, opened: JournalKeeper<MemDisk>) -> Result<Option<Page>, Unread> {
    let mut keeper = opened;
    let rows = printed(alloc, &mut keeper)?;
    Ok(Some(rows))
}

// The rows with a commit more, printed.
fn printed_behind(alloc: Global, keeper: &mut MemKeeper, writes: &Writes) -> Result<Page, Unread> {
    commit(alloc, keeper, writes)?;
    printed(alloc, keeper)
}

// A keeper of the same rows.
fn copied(alloc: Global, keeper: &mut MemKeeper) -> Result<MemKeeper, Unread> {
    let mut other = MemKeeper::new(alloc, Calls::new(alloc));
    copy_rows(alloc, keeper, &mut other)?;
    Ok(other)
}

fn copy_rows(alloc: Global, from: &mut MemKeeper, to: &mut MemKeeper) -> Result<(), Unread> {
    let mut last = None;
    for _ in 0..u64::MAX {
        let Some((key, row)) = next_row(alloc, from, &last)? else {
            return Ok(());
        };
        put(alloc, to, key, row)?;
        last = Some(key);
    }
    Ok(())
}

// Puts one row.
fn put(alloc: Global, keeper: &mut MemKeeper, key: Key, row: Row) -> Result<(), Unread> {
    let writes = one_put(alloc, key, row)?;
    commit(alloc, keeper, &writes)
}

fn one_put(alloc: Global, key: Key, row: Row) -> Result<Writes, Unread> {
    let mut writes = Writes::new(alloc);
    writes.push(Write::Put(key, row))?;
    Ok(writes)
}

// The next row behind a key, or the first.
fn next_row<K: Keeper>(
    alloc: Global,
    keeper: &mut K,
    last: &Option<Key>,
) -> Result<Option<(Key, Row)>, Unread> {
    match keeper.next(alloc, last.as_ref()) {
        Ok(entry) => Ok(entry),
        Err(_failed) => Err(Unread::Memory),
    }
}

// The rows, printed in the order of their keys.
fn printed<K: Keeper>(alloc: Global, keeper: &mut K) -> Result<Page, Unread> {
    let mut page = Page::new(alloc);
    print_rows(alloc, &mut page, keeper)?;
    Ok(page)
}

fn print_rows<K: Keeper>(alloc: Global, page: &mut Page, keeper: &mut K) -> Result<(), Unread> {
    let mut last = None;
    for _ in 0..u64::MAX {
        let Some((key, row)) = next_row(alloc, keeper, &last)? else {
            return Ok(());
        };
        show_row(page, &key, &row)?;
        page.end_line()?;
        last = Some(key);
    }
    Ok(())
}
