//! All rows of a store.

ghost use Rattle.std.specs.Prelude.{◌≡◌, OnOk};
ghost use Rattle.off_defs.specs.Tables.{with_row};
ghost use Rattle.off_outside.specs.KeeperCalls.{Looks};

use off_base::NoMemory;
use off_defs::{Key, Row, Write};
use off_keepmem::MemKeeper;
use off_outside::{Calls, KeepErr, Keeper};
use off_readers::next_behind;
use std::alloc::Global;

/// All rows of a store, by one walk.
pub(crate) fn read_rows<K: Keeper>(alloc: Global, store: &mut K) -> Result<MemKeeper, KeepErr>
    ensures { Looks result (K.seen store.old) (K.seen store.new) (λ rows t. rows.tables ≡ t) }
{
    let mut rows = MemKeeper::new(alloc, Calls::new(alloc));
    let mut place = None;
    'walk: loop {
        let Some((key, row)) = next_behind(alloc, store, place)? else {
            return Ok(rows);
        };
        put(alloc, &mut rows, key, row)?;
        place = Some(key);
    }
}

fn put(alloc: Global, rows: &mut MemKeeper, key: Key, row: Row) -> Result<(), NoMemory>
    ensures { OnOk result (rows.new.tables ≡ with_row rows.old.tables key row) }
{
    let mut writes = Vec::new(alloc);
    if writes.push(Write::Put(key, row)).is_err() {
        return Err(NoMemory);
    }
    let plan = rows.plan_owned(alloc, writes)?;
    rows.apply(plan);
    Ok(())
}
