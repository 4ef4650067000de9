ghost use Rattle.off_defs.specs.declared.writes.Write.TheVariants as write;
ghost use Rattle.off_keepsql.specs.OwnCount.{WriteSpelled, WritesSpelled};

use crate::counts::count_fault;
use off_cells::{CellWrite, CellWrites};
use off_defs::{Key, Row, Write, Writes};
use off_outside::KeepErr;
use off_rows::{encode, encode_key};
use off_spelled::can_store;
use std::alloc::Global;

// The writes as writes of cells. Where one has no spelling, a fault is counted.
pub(crate) fn spell_all(
    alloc: Global,
    writes: &Writes,
    own: &mut u64,
) -> Result<CellWrites, KeepErr>
    ensures { WritesSpelled result writes.now own.old own.new }
{
    let mut cells = CellWrites::new(alloc);
    for i in 0..writes.len() {
        let write = spell(alloc, writes.get(i), own)?;
        cells.push(write)?;
    }
    Ok(cells)
}

fn spell(alloc: Global, write: &Write, own: &mut u64) -> Result<CellWrite, KeepErr>
    ensures { WriteSpelled result write.now own.old own.new }
{
    match write {
        Write::Put(key, row) => spell_put(alloc, key, row, own),
        Write::Drop(key) => Ok(CellWrite::Drop(encode_key(key))),
    }
}

fn spell_put(alloc: Global, key: &Key, row: &Row, own: &mut u64) -> Result<CellWrite, KeepErr>
    ensures { WriteSpelled result (write.Put key.now row.now) own.old own.new }
{
    if !can_store(*key, row) {
        count_fault(own);
        return Err(KeepErr::Failed);
    }
    let val = encode(alloc, row)?;
    Ok(CellWrite::Put(encode_key(key), val))
}
