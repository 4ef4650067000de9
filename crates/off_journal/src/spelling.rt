ghost use Rattle.std.specs.Prelude.{◌≡◌, ℕ, ◌+◌, ◌≤◌, ◌<◌, ◌^◌, ◌++◌, [], ◌∷◌, length, OnOk, OnErr};
ghost use Rattle.std.specs.Prelude.{IfOk, replicate};
ghost use Rattle.std.specs.Int.{to_be_bytes, w32};
ghost use Rattle.off_defs.specs.declared.writes.Write.TheVariants as write;
ghost use Rattle.off_rows.specs.RowBytes.{counted};
ghost use Rattle.off_disk.specs.Crashing.{closed_record};
ghost use Rattle.off_disk.specs.Records.{record_of};
ghost use Rattle.off_rows.specs.KeyBytes.{key_bytes, IsRanged};
ghost use Rattle.off_journal.specs.Keeping.{WritePushed, RecordSpelled, PayloadSpelled, CountsOne};

use off_base::{Bytes, NoMemory};
use off_defs::{Key, Row, Write, Writes};
use off_outside::{KeepErr, one_more};
use off_rows::{encode, encode_key};
use off_spelled::can_store;
use std::alloc::Global;

/// The longest payload.
const MOST_PAYLOAD: usize = 1 << 31;

// A record of the writes, and a closed gate behind it. Where a write has no spelling, or all
// together are too long, a fault is counted.
pub(crate) fn record_of(alloc: Global, writes: &Writes, own: &mut u64) -> Result<Bytes, KeepErr>
    ensures { RecordSpelled result writes.now own.old own.new }
{
    let payload = payload_of(alloc, writes, own)?;
    if payload.len() > MOST_PAYLOAD {
        count_fault(own);
        return Err(KeepErr::Failed);
    }
    let record = closed(alloc, &payload)?;
    Ok(record)
}

// A payload with its length before it, and a closed gate behind it.
fn closed(alloc: Global, payload: &Bytes) -> Result<Bytes, NoMemory>
    requires { length payload.now < 2 ^ 32 }
    ensures { IfOk result (λ bytes. bytes ≡ closed_record payload.now) }
{
    let mut record = Bytes::new(alloc);
    record.push_all(&(payload.len() as u32).to_be_bytes())?;
    record.push_all(payload.as_slice())?;
    record.push_all(&[0])?;
    Ok(record)
}

// Zeros behind a record, over which the next ones are written.
pub(crate) fn push_zeros(alloc: Global, out: &mut Bytes, count: usize) -> Result<(), NoMemory>
    ensures { OnOk result (out.new ≡ out.old ++ replicate count 0) }
{
    let zeros = vec![in alloc; 0; count]?;
    out.push_all(&zeros)
}

// The writes' bytes, one behind another.
fn payload_of(alloc: Global, writes: &Writes, own: &mut u64) -> Result<Bytes, KeepErr>
    ensures { PayloadSpelled result writes.now own.old own.new }
{
    let mut payload = Bytes::new(alloc);
    for i in 0..writes.len() {
        push_write(alloc, &mut payload, writes.get(i), own)?;
    }
    Ok(payload)
}

fn push_write(alloc: Global, out: &mut Bytes, write: &Write, own: &mut u64) -> Result<(), KeepErr>
    ensures { WritePushed result write.now out.old out.new own.old own.new }
{
    match write {
        Write::Put(key, row) => push_put(alloc, out, *key, row, own),
        Write::Drop(key) => {
            push_key(out, 2, *key)?;
            Ok(())
        }
    }
}

fn push_put(
    alloc: Global,
    out: &mut Bytes,
    key: Key,
    row: &Row,
    own: &mut u64,
) -> Result<(), KeepErr>
    ensures { WritePushed result (write.Put key row.now) out.old out.new own.old own.new }
{
    if !can_store(key, row) {
        count_fault(own);
        return Err(KeepErr::Failed);
    }
    let val = encode(alloc, row)?;
    push_key(out, 1, key)?;
    push_row(out, &val)?;
    Ok(())
}

// A mark, and a key's bytes behind their length.
fn push_key(out: &mut Bytes, mark: u8, key: Key) -> Result<(), NoMemory>
    ensures bytes { OnOk result (out.new ≡ out.old ++ mark ∷ counted (key_bytes key)) }
    ensures ranged { IsRanged key }
{
    let bytes = encode_key(&key);
    let slice = bytes.as_slice();
    out.push_all(&[mark, slice.len() as u8])?;
    out.push_all(slice)
}

// A row's bytes behind their length.
fn push_row(out: &mut Bytes, val: &Bytes) -> Result<(), NoMemory>
    requires { length val.now < 2 ^ 32 }
    ensures { OnOk result (out.new
        ≡ out.old ++ (to_be_bytes w32 (length val.now) ++ val.now)) }
{
    out.push_all(&(val.len() as u32).to_be_bytes())?;
    out.push_all(val.as_slice())
}

fn count_fault(faults: &mut u64)
    ensures { CountsOne faults.old faults.new }
{
    *faults = one_more(*faults);
}
