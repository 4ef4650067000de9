ghost use Rattle.std.specs.Prelude.{◌≡◌, ℕ, ◌+◌, ◌<◌, ◌≤◌, ◌^◌, ◌++◌, [], ◌∷◌, List, length};
ghost use Rattle.std.specs.Prelude.{MatchResult, MatchBool, MatchOption, IfOk, OnOk};
ghost use Rattle.std.specs.Int.{to_be_bytes, w32};
ghost use Rattle.off_outside.specs.KeeperSeen.{KeeperSeen};
ghost use Rattle.off_disk.specs.DiskCalls.{HasRead};
ghost use Rattle.off_journal.specs.Begin.{RecordRead, AllReadIn, HasOpened, NotOpened, HasBegun};
ghost use Rattle.off_journal.specs.Begin.{NotBegun, NotAllRead};
ghost use Rattle.off_journal.specs.Begin.{PayloadDone, IsNotOne, NotLooked, MadeEmpty};

use crate::keeper::{Counts, JournalKeeper, Last};
use crate::reading::{PayloadErr, read_payload};
use off_base::NoMemory;
use off_disk::{Disk, ReadAhead, close, write_synced};
use off_keepmem::MemKeeper;
use off_outside::{Calls, Failed, Keeper};
use std::alloc::Global;

/// So many bytes of a journal are read at once, since its records are short.
const STRETCH: usize = 1 << 16;

/// Why a journal couldn't be opened.
#[derive(Clone, Copy, PartialEq, Eq)]
pub enum OpenErr {
    /// Memory was wanted, and refused.
    Memory,
    /// The disk failed, and counted a fault.
    Failed,
    /// A whole record behind an open gate has no payload of writes. This is the place of its
    /// length, counted from 0.
    Bad(u64),
}

impl From<NoMemory> for OpenErr {
    ghost use Rattle.std.specs.Prelude.{◌≡◌};
    ghost use Rattle.off_journal.specs.declared.begin.OpenErr.TheVariants.{Memory};

    ghost from_gives = { λ refused err. err ≡ Memory };

    fn from(_refused: NoMemory) -> OpenErr {
        OpenErr::Memory
    }
}

impl From<Failed> for OpenErr {
    ghost use Rattle.std.specs.Prelude.{◌≡◌};
    ghost use Rattle.off_journal.specs.declared.begin.OpenErr.TheVariants as err;

    ghost from_gives = { λ failed e. e ≡ err.Failed };

    fn from(_failed: Failed) -> OpenErr {
        OpenErr::Failed
    }
}

/// A disk whose journal couldn't be opened, and why.
#[derive(Drop)]
pub struct Unopened<D> {
    pub why: OpenErr,
    pub disk: D,
}

/// What stands behind a gate.
#[derive(Drop)]
pub(crate) enum Gate {
    // The gate isn't 1.
    Shut,
    // The gate is 1, and no whole record follows it.
    Broken,
    // A whole record follows the gate, with this payload.
    Open(Vec<u8>),
}

// What was found on a disk.
#[derive(Drop)]
pub(crate) struct Found {
    rows: MemKeeper,
    // The place of the last gate, and whether it is 1.
    gate: u64,
    is_broken: bool,
}

impl<D: Disk> JournalKeeper<D> {
    /// Opens the journal on a disk, and makes one where the disk is empty. The tables are in memory
    /// from then on.
    pub fn begin(alloc: Global, disk: D) -> Result<JournalKeeper<D>, Unopened<D>>
        ensures begun { MatchResult result
            (λ keeper. HasBegun (D.seen disk)
            (⟦<JournalKeeper<D> as Keeper>⟧.seen keeper))
            (λ refused. NotBegun refused.why (D.seen disk) (D.seen refused.disk)) }
        ensures made { IfOk result (λ keeper. MadeEmpty (D.seen disk) (D.seen keeper.disk)) }
        ensures room { IfOk result (λ keeper. keeper.room ≡ 0) }
    {
        JournalKeeper::begin_with_room(alloc, disk, 0)
    }

    /// The same, of a disk that grows in steps: a record that doesn't fit into it has so many zeros
    /// behind it, over which the next ones are written. A sync of what was written within a file is
    /// quicker than one of a file that has grown.
    pub fn begin_with_room(
        alloc: Global,
        disk: D,
        room: usize,
    ) -> Result<JournalKeeper<D>, Unopened<D>>
        ensures begun { MatchResult result
            (λ keeper. HasBegun (D.seen disk)
            (⟦<JournalKeeper<D> as Keeper>⟧.seen keeper))
            (λ refused. NotBegun refused.why (D.seen disk) (D.seen refused.disk)) }
        ensures made { IfOk result (λ keeper. MadeEmpty (D.seen disk) (D.seen keeper.disk)) }
        ensures room { IfOk result (λ keeper. keeper.room ≡ room) }
    {
        let Ok(stretch) = zeros(alloc, STRETCH) else {
            let why = OpenErr::Memory;
            return Err(Unopened { why, disk });
        };
        let mut ahead = ReadAhead::over(disk, stretch);
        match open(alloc, &mut ahead) {
            Ok(found) => Ok(JournalKeeper {
                disk: ahead.into_disk(),
                gate: found.gate,
                rows: found.rows,
                last: Last::Closed,
                counts: Counts::new(),
                room,
            }),
            Err(why) => Err(Unopened {
                why,
                disk: ahead.into_disk(),
            }),
        }
    }
}

// The journal of a disk, repaired.
fn open<D: Disk>(alloc: Global, disk: &mut D) -> Result<Found, OpenErr>
    ensures made { OnOk result (MadeEmpty (D.seen disk.old) (D.seen disk.new)) }
    ensures opened { MatchResult result
        (λ found. HasOpened found.rows.tables found.gate (D.seen disk.old) (D.seen disk.new))
        (λ why. NotOpened why (D.seen disk.old) (D.seen disk.new)) }
{
    let Ok(()) = disk.sync() else {
        return Err(OpenErr::Failed);
    };
    if disk.length() == 0 {
        let Ok(()) = write_synced(disk, 0, &[0]) else {
            return Err(OpenErr::Failed);
        };
        return Ok(Found {
            rows: MemKeeper::new(alloc, Calls::new(alloc)),
            gate: 0,
            is_broken: false,
        });
    }
    let found = read_all(alloc, disk)?;
    if found.is_broken {
        let Ok(()) = close(disk, found.gate) else {
            return Err(OpenErr::Failed);
        };
        return Ok(found);
    }
    Ok(found)
}

// All records behind open gates.
fn read_all<D: Disk>(alloc: Global, disk: &mut D) -> Result<Found, OpenErr>
    requires { 0 < (D.seen disk.old).size }
    ensures { MatchResult result
        (λ found. AllReadIn found.rows.tables found.gate found.is_broken
        (D.seen disk.old) (D.seen disk.new))
        (λ why. NotAllRead why (D.seen disk.old) (D.seen disk.new)) }
{
    let mut rows = MemKeeper::new(alloc, Calls::new(alloc));
    let mut gate = 0;
    'records: loop {
        match read_record(alloc, disk, gate)? {
            Gate::Shut => {
                return Ok(Found {
                    rows,
                    gate,
                    is_broken: false,
                });
            }
            Gate::Broken => {
                return Ok(Found {
                    rows,
                    gate,
                    is_broken: true,
                });
            }
            Gate::Open(payload) => {
                do_payload(alloc, &mut rows, gate, &payload)?;
                gate = gate + 5 + payload.len() as u64;
            }
        }
    }
}

// The writes of a payload, done.
fn do_payload(alloc: Global, rows: &mut MemKeeper, gate: u64, payload: &[u8]) -> Result<(), OpenErr>
    requires { gate < 2 ^ 63 }
    ensures { PayloadDone result gate payload.now rows.old.tables rows.new.tables }
{
    let writes = match read_payload(alloc, payload) {
        Ok(writes) => writes,
        Err(PayloadErr::Bad) => return Err(OpenErr::Bad(gate + 1)),
        Err(PayloadErr::Memory) => return Err(OpenErr::Memory),
    };
    let plan = rows.plan_owned(alloc, writes)?;
    rows.apply(plan);
    Ok(())
}

// What stands behind a gate.
fn read_record<D: Disk>(alloc: Global, disk: &mut D, gate: u64) -> Result<Gate, OpenErr>
    requires { gate < (D.seen disk.old).size }
    ensures { RecordRead result gate (D.seen disk.old) (D.seen disk.new) }
{
    let left = disk.length() - gate;
    if left < 5 {
        let mut first = [0; 1];
        disk.read(gate, &mut first)?;
        if is_one(&first) {
            return Ok(Gate::Broken);
        }
        return Ok(Gate::Shut);
    }
    let mut head = [0; 5];
    disk.read(gate, &mut head)?;
    let Some(length) = length_of(&head) else {
        return Ok(Gate::Shut);
    };
    if u64::from(length) + 5 >= left {
        return Ok(Gate::Broken);
    }
    let payload = read_bytes(alloc, disk, gate + 5, length as usize)?;
    Ok(Gate::Open(payload))
}

fn read_bytes<D: Disk>(
    alloc: Global,
    disk: &mut D,
    at: u64,
    count: usize,
) -> Result<Vec<u8>, OpenErr>
    requires { at + count ≤ (D.seen disk.old).size }
    ensures { MatchResult result
        (λ v. HasRead at v.items (D.seen disk.old) (D.seen disk.new) × (length v.items ≡ count))
        (λ why. NotLooked why (D.seen disk.old) (D.seen disk.new)) }
{
    let mut bytes = zeros(alloc, count)?;
    disk.read(at, &mut bytes)?;
    Ok(bytes)
}

fn is_one(bytes: &[u8; 1]) -> bool
    ensures { MatchBool result (bytes.now ≡ 1 ∷ []) (IsNotOne bytes.now) }
{
    let [byte] = *bytes;
    byte == 1
}

// The length of a record, behind an open gate.
fn length_of(bytes: &[u8; 5]) -> Option<u32>
    ensures { MatchOption result (IsNotOne bytes.now)
        (λ length. (length < 2 ^ 32) × (bytes.now ≡ 1 ∷ to_be_bytes w32 length)) }
{
    let [first, a, b, c, d] = *bytes;
    if first != 1 {
        return None;
    }
    Some(u32::from_be_bytes([a, b, c, d]))
}

fn zeros(alloc: Global, count: usize) -> Result<Vec<u8>, NoMemory>
    ensures { IfOk result (λ v. length v.items ≡ count) }
{
    let mut v = Vec::new(alloc);
    v.resize(count, 0)?;
    Ok(v)
}
