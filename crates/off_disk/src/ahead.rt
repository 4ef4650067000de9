//! A disk that is read a stretch at a time.
ghost use Rattle.std.specs.Prelude.{◌≡◌, ◌+◌, ◌≤◌, length, take, MatchResult, MatchBool};
ghost use Rattle.off_disk.specs.DiskSeen.{DiskSeen};
ghost use Rattle.off_disk.specs.DiskCalls.{HasRead, HasWritten, HasSynced};
ghost use Rattle.off_disk.specs.DiskCalls.{NotRead, NotWritten, NotSynced};
ghost use Rattle.off_disk.specs.Ahead.{Shows, HasFilled, IsWithin};

use crate::disk::Disk;
use off_outside::Failed;

/// A disk that reads ahead. A read that lies in the stretch that was read last asks nothing of the
/// disk below.
#[derive(Drop)]
pub struct ReadAhead<D: Disk> {
    disk: D,
    // The stretch is so many of the first bytes of the room, and begins at this place of the disk.
    at: u64,
    count: usize,
    room: Vec<u8>,
    ghost within: { count ≤ length room.items },
    ghost shows: { Shows at count room.items (D.seen disk) },
}

impl<D: Disk> ReadAhead<D> {
    /// Reads as many bytes at a time as the room has.
    pub fn over(disk: D, room: Vec<u8>) -> ReadAhead<D>
        ensures { result.disk ≡ disk }
    {
        ReadAhead {
            disk,
            at: 0,
            count: 0,
            room,
        }
    }

    /// The disk below.
    pub fn into_disk(self) -> D
        ensures { result ≡ self.disk }
    {
        self.disk
    }

    // Whether the stretch has so many bytes from a place on.
    fn has(&self, at: u64, count: usize) -> bool
        ensures { MatchBool result (IsWithin at count self.now.at self.now.count) Unit }
    {
        at >= self.at
            && at - self.at <= self.count as u64
            && count <= self.count - (at - self.at) as usize
    }

    // Reads on, unless the stretch has so many bytes from a place on.
    #[tactic(auto, using(crate::proofs::Stretches::reached))]
    fn reach(&mut self, at: u64, least: usize) -> Result<(), Failed>
        requires fits { at + least ≤ (D.seen self.old.disk).size }
        requires room { least ≤ length self.old.room.items }
        ensures { MatchResult result
            (λ _. HasFilled at least self.new.at self.new.count
            (D.seen self.old.disk) (D.seen self.new.disk))
            (λ _. NotRead (D.seen self.old.disk) (D.seen self.new.disk)) }
    {
        if self.has(at, least) {
            return Ok(());
        }
        self.fill(at, least)
    }

    // Reads the stretch that begins at a place.
    fn fill(&mut self, at: u64, least: usize) -> Result<(), Failed>
        requires fits { at + least ≤ (D.seen self.old.disk).size }
        requires room { least ≤ length self.old.room.items }
        ensures { MatchResult result
            (λ _. HasFilled at least self.new.at self.new.count
            (D.seen self.old.disk) (D.seen self.new.disk))
            (λ _. NotRead (D.seen self.old.disk) (D.seen self.new.disk)) }
    {
        let left = self.disk.length() - at;
        let count = left.min(self.room.len() as u64) as usize;
        self.count = 0;
        let Ok(()) = read_front(&mut self.disk, at, &mut self.room, count) else {
            return Err(Failed);
        };
        self.at = at;
        self.count = count;
        Ok(())
    }
}

impl<D: Disk> Disk for ReadAhead<D> {
    ghost seen = { λ s. D.seen s.disk };

    fn length(&self) -> u64 {
        self.disk.length()
    }

    fn moment(&self) -> u64 {
        self.disk.moment()
    }

    fn read(&mut self, at: u64, out: &mut [u8]) -> Result<(), Failed> {
        let count = out.len();
        if count > self.room.len() {
            self.count = 0;
            return self.disk.read(at, out);
        }
        let Ok(()) = self.reach(at, count) else {
            return Err(Failed);
        };
        let from = (at - self.at) as usize;
        out.copy_from_slice(&self.room[from..from + count]);
        Ok(())
    }

    fn write_at(&mut self, at: u64, piece: &[u8]) -> Result<(), Failed> {
        self.count = 0;
        self.disk.write_at(at, piece)
    }

    fn sync(&mut self) -> Result<(), Failed> {
        self.count = 0;
        self.disk.sync()
    }

    ghost one_bytes = { λ s. D.one_bytes s.disk };

    ghost lengths = { λ s b told. D.lengths s.disk b told };

    ghost reads_as_left = { λ s b told. D.reads_as_left s.disk b told };

    ghost small = { λ s. D.small s.disk };
}

// Reads so many bytes into the front of the room.
fn read_front<D: Disk>(
    disk: &mut D,
    at: u64,
    room: &mut Vec<u8>,
    count: usize,
) -> Result<(), Failed>
    requires fits { at + count ≤ (D.seen disk.old).size }
    requires room { count ≤ length room.old.items }
    ensures long { length room.new.items ≡ length room.old.items }
    ensures read { MatchResult result
        (λ _. HasRead at (take count room.new.items) (D.seen disk.old) (D.seen disk.new))
        (λ _. NotRead (D.seen disk.old) (D.seen disk.new)) }
{
    read_part(disk, at, room.as_mut_slice(), count)
}

fn read_part<D: Disk>(disk: &mut D, at: u64, room: &mut [u8], count: usize) -> Result<(), Failed>
    requires fits { at + count ≤ (D.seen disk.old).size }
    requires room { count ≤ length room.old }
    ensures long { length room.new ≡ length room.old }
    ensures read { MatchResult result
        (λ _. HasRead at (take count room.new) (D.seen disk.old) (D.seen disk.new))
        (λ _. NotRead (D.seen disk.old) (D.seen disk.new)) }
{
    disk.read(at, &mut room[..count])
}
