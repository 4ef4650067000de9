//! The two changes of a journal's file: a record is appended, and a gate in doubt is closed.
ghost use Rattle.std.specs.Prelude.{◌≡◌, ℕ, List, ◌++◌, ◌<◌, ◌≤◌, length, MatchResult, true};
ghost use Rattle.std.specs.Prelude.{false, [], ◌∷◌, OnOk};
ghost use Rattle.off_disk.specs.DiskCalls.{HasStored, NotWritten};
ghost use Rattle.off_disk.specs.Crashing.{Appends, Settles, closed_record};
ghost use Rattle.off_disk.specs.Records.{IsShort};

use crate::disk::Disk;
use off_outside::Failed;

/// How an appending ended.
#[derive(Clone, Copy, PartialEq, Eq)]
pub enum Appended {
    /// The record stands behind an open gate.
    Opened,
    /// The disk failed at the record, and the journal is as before.
    Closed,
    /// The disk failed at the gate, which may be any byte now.
    Doubtful,
}

/// Writes a record behind a closed gate, with a closed gate at its end, and then opens the gate.
/// Bytes may stand behind the closed gate: the next records are written over them.
pub fn append<D: Disk>(disk: &mut D, gate: u64, bytes: &[u8]) -> Appended
    requires { gate < (D.seen disk.old).size }
    ensures { (payload room : List ℕ) → bytes.now ≡ closed_record payload ++ room
        → IsShort payload
        → Appends gate payload result (D.seen disk.old) (D.seen disk.new) }
{
    let Ok(()) = write_synced(disk, gate + 1, bytes) else {
        return Appended::Closed;
    };
    let Ok(()) = write_synced(disk, gate, &[1]) else {
        return Appended::Doubtful;
    };
    Appended::Opened
}

/// Closes a gate, open, broken or in doubt: its byte is 0 then.
pub fn close<D: Disk>(disk: &mut D, gate: u64) -> Result<(), Failed>
    requires { gate < (D.seen disk.old).size }
    ensures settles { MatchResult result
        (λ _. Settles gate true (D.seen disk.old) (D.seen disk.new))
        (λ _. Settles gate false (D.seen disk.old) (D.seen disk.new)) }
    ensures stored { OnOk result (HasStored gate (0 ∷ []) (D.seen disk.old) (D.seen disk.new)) }
{
    let Ok(()) = write_synced(disk, gate, &[0]) else {
        return Err(Failed);
    };
    Ok(())
}

/// Writes, and syncs. Where either fails, any bytes may stand in the range.
pub fn write_synced<D: Disk>(disk: &mut D, at: u64, piece: &[u8]) -> Result<(), Failed>
    requires { at ≤ (D.seen disk.old).size }
    ensures { MatchResult result
        (λ _. HasStored at piece.now (D.seen disk.old) (D.seen disk.new))
        (λ _. NotWritten at (length piece.now) (D.seen disk.old) (D.seen disk.new)) }
{
    let Ok(()) = disk.write_at(at, piece) else {
        return Err(Failed);
    };
    let Ok(()) = disk.sync() else {
        return Err(Failed);
    };
    Ok(())
}
