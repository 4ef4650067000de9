use crate::line::{Line, Unread};
use crate::rows::{read_key, read_row, stranger};
use off_defs::Write;
use std::alloc::Global;

/// Reads what an opening row does: a key with its row puts it; `drop` before a key takes its row
/// away, and `stray` before a key gives it a row of another kind.
pub fn read_write(alloc: Global, line: &mut Line<'_>) -> Result<Write, Unread> {
    let mut ahead = *line;
    match ahead.word() {
        b"drop" => Ok(Write::Drop(read_key(&mut ahead)?)),
        b"stray" => {
            let key = read_key(&mut ahead)?;
            Ok(Write::Put(key, stranger(key)))
        }
        _ => {
            let key = read_key(line)?;
            Ok(Write::Put(key, read_row(alloc, key, line)?))
        }
    }
}
