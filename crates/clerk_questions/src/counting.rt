use off_account_rules::Counts;
use off_base::NoMemory;
use off_defs::{Key, Writes};
use off_keepmem::MemKeeper;
use off_opening::count_rows;
use off_outside::{Calls, Keeper};
use script_words::{Line, Page, Unread, read_write, show_row};
use std::alloc::Global;

// The changes of a line, which stand between semicolons.
fn read_writes(alloc: Global, text: &[u8]) -> Result<Writes, Unread> {
    let mut writes = Writes::new(alloc);
    for part in text.split(|byte| *byte == b';') {
        let part = part.strip_prefix(b" ").unwrap_or(part);
        if !part.is_empty() {
            writes.push(read_write(alloc, &mut Line::over(part))?)?;
        }
    }
    Ok(writes)
}

/// A keeper in memory behind a commit of these changes.
pub fn keeper_of(alloc: Global, text: &[u8]) -> Result<MemKeeper, Unread> {
    let writes = read_writes(alloc, text)?;
    let mut keeper = MemKeeper::new(alloc, Calls::new(alloc));
    match keeper.commit(alloc, &writes) {
        Ok(()) => Ok(keeper),
        Err(_failed) => Err(Unread::Memory),
    }
}

fn show_count(page: &mut Page, word: &str, number: u64) -> Result<(), NoMemory> {
    page.text(word)?;
    page.number(number)
}

/// Prints how many rows of each kind there are.
pub fn show_counts(page: &mut Page, counts: &Counts) -> Result<(), NoMemory> {
    show_count(page, "subscribers ", counts.subscribers)?;
    show_count(page, " add-ons ", counts.addons)?;
    show_count(page, " modems ", counts.modems)?;
    show_count(page, " classes ", counts.classes)?;
    show_count(page, " pools ", counts.pools)?;
    show_count(page, " batches ", counts.batches)?;
    show_count(page, " hubs ", counts.hubs)?;
    show_count(page, " device-pools ", counts.device_pools)
}

/// `count ROW; ROW`: how many possible rows of each kind the tables have.
pub fn count(alloc: Global, page: &mut Page, line: Line<'_>) -> Result<(), Unread> {
    let mut keeper = keeper_of(alloc, line.rest())?;
    match count_rows(alloc, &mut keeper) {
        Ok(counts) => Ok(show_counts(page, &counts)?),
        Err(_failed) => Err(Unread::Memory),
    }
}

/// `writes ROW; ROW`: the rows that stand behind a commit of these changes, in the order of their
/// keys.
pub fn writes(alloc: Global, page: &mut Page, line: Line<'_>) -> Result<(), Unread> {
    let mut keeper = keeper_of(alloc, line.rest())?;
    let mut last: Option<Key> = None;
    for _ in 0..line.rest().len() {
        let Ok(Some((key, row))) = keeper.next(alloc, last.as_ref()) else {
            break;
        };
        show_row(page, &key, &row)?;
        page.text("; ")?;
        last = Some(key);
    }
    Ok(show_count(page, "calls ", keeper.calls())?)
}
