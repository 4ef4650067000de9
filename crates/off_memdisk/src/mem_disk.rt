ghost use Rattle.std.specs.Prelude.{◌≡◌, ◌+◌, ◌≤◌, ◌↔◌, ◌^◌, length, [], MatchResult, IsTrue, IfOk};
ghost use Rattle.off_disk.specs.DiskCalls.{HasRead, HasWritten, HasSynced};
ghost use Rattle.off_disk.specs.DiskCalls.{NotRead, NotWritten, NotSynced};
ghost use Rattle.off_memdisk.specs.MemDisks.{mem_seen, reads_as, used, new_disk, most_bytes};
ghost use Rattle.off_memdisk.specs.MemDisks.{HasRoom, IsSound, IsCrashed, MemRead, MemWrote};
ghost use Rattle.off_memdisk.specs.MemDisks.{MemSynced, MemNotRead, MemNotWritten, MemNotSynced};
ghost use Rattle.off_memdisk.specs.MemDiskLaws.{mem_one, mem_lengths, mem_reads, mem_small};

use crate::tearing::image_of;
use crate::writing::{push_in_room, put_in_room};
use off_base::NoMemory;
use off_disk::Disk;
use off_outside::{Calls, Failed, Failing, one_more};
use std::alloc::Global;
use std::marker::Model;

/// The greatest length of a disk.
const MOST_BYTES: u64 = 1 << 62;

/// A call that was done.
#[derive(Clone, Copy, PartialEq, Eq)]
pub(crate) enum Mark {
    // A write at this place, of so many bytes.
    Wrote(u64, usize),
    Synced,
}

/// A disk in memory, which records its writes and syncs. From the record it can tell what a crash
/// may leave.
#[derive(Drop)]
pub struct MemDisk {
    bytes: Vec<u8>,
    base: Vec<u8>,
    marks: Vec<Mark>,
    pieces: Vec<u8>,
    room: usize,
    failing: Failing,
    faults: u64,
}

impl Model for MemDisk {
    ghost use Rattle.std.specs.Vec.{vec_capacity};
    ghost use Rattle.off_memdisk.specs.MemDisks.{MemDiskHeld, DiskHeld, HasSpace, calls_of};

    ghost Value = { MemDiskHeld };

    ghost view = { λ m. record {
      base = m.base.items;
      calls = calls_of m.marks.items m.pieces.items;
      room = m.room;
      faults = m.faults;
      failing = m.failing;
    } };

    ghost invariant = { λ m. DiskHeld m.base.items m.marks.items m.pieces.items m.bytes.items m.room
        × HasSpace (vec_capacity m.bytes) (vec_capacity m.pieces) (vec_capacity m.marks) m.room };
}

impl MemDisk {
    /// An empty disk, whose calls of the listed numbers fail. It takes room for so many bytes that
    /// it holds and calls that it records.
    pub fn new(alloc: Global, room: usize, fails: Calls) -> Result<MemDisk, NoMemory>
        ensures { IfOk result (λ disk. disk ≡ new_disk [] room fails) }
    {
        MemDisk::over(alloc, Vec::new(alloc), room, fails)
    }

    /// A disk that begins with these bytes.
    pub fn over(
        alloc: Global,
        base: Vec<u8>,
        room: usize,
        fails: Calls,
    ) -> Result<MemDisk, NoMemory>
        requires room { length base.items ≤ room }
        requires small { length base.items ≤ most_bytes }
        ensures { IfOk result (λ disk. disk ≡ new_disk base.items room fails) }
    {
        let mut bytes = Vec::with_capacity(alloc, room)?;
        bytes.extend_from_slice(&base)?;
        Ok(MemDisk {
            bytes,
            base,
            marks: Vec::with_capacity(alloc, room)?,
            pieces: Vec::with_capacity(alloc, room)?,
            room,
            failing: Failing::new(fails),
            faults: 0,
        })
    }

    /// The bytes, as they read.
    pub fn bytes(&self) -> &[u8]
        ensures { result.now ≡ reads_as self.now }
    {
        self.bytes.as_slice()
    }

    /// How often a call has failed.
    pub fn faults(&self) -> u64
        ensures { result ≡ self.now.faults }
    {
        self.faults
    }

    /// A disk that a crash may leave, with the same room, and no call to fail. The number picks
    /// how the writes since the last sync are torn, by its rest by 8:
    ///
    /// | Rest | Of each write |
    /// |---|---|
    /// | 0 | all of it is there |
    /// | 1 | nothing |
    /// | 2 | its first half |
    /// | 3 | its second half, and zeros before |
    /// | 4 | bytes of 1 in its place |
    /// | 5 | bytes of 255 in its place |
    /// | 6 | the last is there; of the others the first half, and bytes of 255 behind it |
    /// | 7 | of the last the first half, and bytes of 255 behind it; the others are there |
    pub fn crash(&self, alloc: Global, pick: u64) -> Result<MemDisk, NoMemory>
        ensures { IfOk result (λ disk. IsCrashed self.now disk) }
    {
        let image = image_of(alloc, &self.base, &self.marks, &self.pieces, pick)?;
        MemDisk::over(alloc, image, self.room, Calls::new(alloc))
    }

    // How much room is left.
    fn room_left(&self) -> usize
        ensures { used self.now + result ≡ self.now.room }
    {
        self.room - self.base.len() - self.pieces.len() - self.marks.len()
    }

    // Whether there is room for a write at a place of so many bytes.
    fn has_room(&self, at: u64, count: usize) -> bool
        requires { at ≤ most_bytes }
        ensures { IsTrue result ↔ HasRoom at count self.now }
    {
        count < self.room_left() && count as u64 <= MOST_BYTES - at
    }

    fn give(&mut self, at: u64, out: &mut [u8]) -> Result<(), Failed>
        requires { at + length out.old ≤ length (reads_as self.old) }
        ensures { MatchResult result (λ _. MemRead at out.new self.old self.new)
            (λ _. MemNotRead self.old self.new) }
    {
        if self.failing.call() {
            self.faults = one_more(self.faults);
            return Err(Failed);
        }
        let from = at as usize;
        out.copy_from_slice(&self.bytes[from..from + out.len()]);
        Ok(())
    }

    fn put(&mut self, at: u64, piece: &[u8]) -> Result<(), Failed>
        requires { at ≤ length (reads_as self.old) }
        ensures sound { IsSound self.old.base self.old.calls }
        ensures exact { MatchResult result (λ _. MemWrote at piece.now self.old self.new)
            (λ _. MemNotWritten at (length piece.now) self.old self.new) }
    {
        let has_room = self.has_room(at, piece.len());
        if self.failing.call() {
            self.faults = one_more(self.faults);
            return Err(Failed);
        }
        if !has_room {
            self.faults = one_more(self.faults);
            return Err(Failed);
        }
        let held = self.pieces.len();
        put_in_room(&mut self.bytes, at as usize, piece);
        put_in_room(&mut self.pieces, held, piece);
        push_in_room(&mut self.marks, Mark::Wrote(at, piece.len()));
        Ok(())
    }

    fn mark(&mut self) -> Result<(), Failed>
        ensures sound { IsSound self.old.base self.old.calls }
        ensures exact { MatchResult result (λ _. MemSynced self.old self.new)
            (λ _. MemNotSynced self.old self.new) }
    {
        let left = self.room_left();
        if self.failing.call() {
            self.faults = one_more(self.faults);
            return Err(Failed);
        }
        if left == 0 {
            self.faults = one_more(self.faults);
            return Err(Failed);
        }
        push_in_room(&mut self.marks, Mark::Synced);
        Ok(())
    }
}

impl Disk for MemDisk {
    ghost seen = { λ m. mem_seen m };

    fn length(&self) -> u64 {
        self.bytes.len() as u64
    }

    #[tactic(auto, using(crate::proofs::HeldLemmas::calls_length))]
    fn moment(&self) -> u64 {
        self.marks.len() as u64
    }

    fn read(&mut self, at: u64, out: &mut [u8]) -> Result<(), Failed>
        requires { at + length out.old ≤ (mem_seen self.old).size }
        ensures told { MatchResult result
            (λ _. HasRead at out.new (mem_seen self.old) (mem_seen self.new))
            (λ _. NotRead (mem_seen self.old) (mem_seen self.new)) }
        ensures exact { MatchResult result (λ _. MemRead at out.new self.old self.new)
            (λ _. MemNotRead self.old self.new) }
    {
        self.give(at, out)
    }

    fn write_at(&mut self, at: u64, piece: &[u8]) -> Result<(), Failed>
        requires { at ≤ (mem_seen self.old).size }
        ensures told { MatchResult result
            (λ _. HasWritten at piece.now (mem_seen self.old) (mem_seen self.new))
            (λ _. NotWritten at (length piece.now) (mem_seen self.old) (mem_seen self.new)) }
        ensures exact { MatchResult result (λ _. MemWrote at piece.now self.old self.new)
            (λ _. MemNotWritten at (length piece.now) self.old self.new) }
    {
        self.put(at, piece)
    }

    fn sync(&mut self) -> Result<(), Failed>
        ensures told { MatchResult result (λ _. HasSynced (mem_seen self.old) (mem_seen self.new))
            (λ _. NotSynced (mem_seen self.old) (mem_seen self.new)) }
        ensures exact { MatchResult result (λ _. MemSynced self.old self.new)
            (λ _. MemNotSynced self.old self.new) }
    {
        self.mark()
    }

    ghost one_bytes = { λ m. mem_one m };

    ghost lengths = { λ m b told. mem_lengths m b told };

    ghost reads_as_left = { λ m b told. mem_reads m b told };

    ghost small = { λ m. mem_small m };
}
