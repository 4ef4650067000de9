ghost use Rattle.off_keepsql.specs.OwnCount.{RowRead, EntryRead, Refuses};

use crate::counts::count_fault;
use off_base::Bytes;
use off_defs::{Key, Row};
use off_outside::KeepErr;
use off_rows::{KeyBytes, RowErr, decode, decode_key};
use std::alloc::Global;

// The row of a key that has these bytes. Where there is none, a fault is counted.
pub(crate) fn row_of(alloc: Global, key: &Key, val: &[u8], own: &mut u64) -> Result<Row, KeepErr>
    ensures { RowRead result key.now val.now own.old own.new }
{
    match decode(alloc, key, val) {
        Ok(row) => Ok(row),
        Err(err) => Err(refusal(err, own)),
    }
}

// The key and the row of a cell. Where it isn't a key and a row, a fault is counted.
pub(crate) fn entry_of(
    alloc: Global,
    ident: KeyBytes,
    val: &Bytes,
    own: &mut u64,
) -> Result<(Key, Row), KeepErr>
    ensures { EntryRead result (ident, val.now) own.old own.new }
{
    let Some(key) = decode_key(ident.as_slice()) else {
        count_fault(own);
        return Err(KeepErr::Failed);
    };
    let row = row_of(alloc, &key, val.as_slice(), own)?;
    Ok((key, row))
}

fn refusal(err: RowErr, own: &mut u64) -> KeepErr
    ensures { Refuses err result own.old own.new }
{
    match err {
        RowErr::Memory => KeepErr::Memory,
        RowErr::BadRow(_place) => {
            count_fault(own);
            KeepErr::Failed
        }
    }
}
