ghost use Rattle.std.specs.Prelude.{◌≡◌, ℕ, ◌+◌, ◌≤◌, ◌^◌, List, length, MatchResult};
ghost use Rattle.off_defs.specs.Told.{IsOne};
ghost use Rattle.off_disk.specs.DiskSeen.{DiskSeen};
ghost use Rattle.off_disk.specs.DiskCalls.{HasRead, HasWritten, HasSynced};
ghost use Rattle.off_disk.specs.DiskCalls.{NotRead, NotWritten, NotSynced};

use off_outside::Failed;

/// A file of bytes. Between two syncs a crash may leave any bytes in what was written.
pub trait Disk {
    // What it tells: the bytes that a read gives, and what a crash may leave, both perhaps untold;
    // its length, and its faults.
    ghost seen: { Self → DiskSeen };

    /// How many bytes there are.
    fn length(&self) -> u64
        ensures { result ≡ (seen self.now).size };

    /// The moment by the disk's own clock, by which it tells what a crash may leave. A disk that
    /// tells nothing of crashes stays at 0.
    fn moment(&self) -> u64
        ensures { result ≡ (seen self.now).moment };

    /// Reads the bytes from a place on.
    fn read(&mut self, at: u64, out: &mut [u8]) -> Result<(), Failed>
        requires { at + length out.old ≤ (seen self.old).size }
        ensures { MatchResult result
            (λ _. HasRead at out.new (seen self.old) (seen self.new))
            (λ _. NotRead (seen self.old) (seen self.new)) };

    /// Writes over what is there, and past the end.
    fn write_at(&mut self, at: u64, piece: &[u8]) -> Result<(), Failed>
        requires { at ≤ (seen self.old).size }
        ensures { MatchResult result
            (λ _. HasWritten at piece.now (seen self.old) (seen self.new))
            (λ _. NotWritten at (length piece.now) (seen self.old) (seen self.new)) };

    /// After it, a crash leaves what a read gives.
    fn sync(&mut self) -> Result<(), Failed>
        ensures { MatchResult result
            (λ _. HasSynced (seen self.old) (seen self.new))
            (λ _. NotSynced (seen self.old) (seen self.new)) };

    // What is told of the bytes is one value, and as long as the disk says.
    ghost one_bytes: { (s : Self) → IsOne (seen s).bytes };

    ghost lengths: { (s : Self) (b : List ℕ) → (seen s).bytes b → length b ≡ (seen s).size };

    // The disk as it reads is one of those that a crash may leave.
    ghost reads_as_left: { (s : Self) (b : List ℕ) → (seen s).bytes b
        → (seen s).left (seen s).moment b };

    ghost small: { (s : Self) → (seen s).size ≤ 2 ^ 62 };
}
