ghost use Rattle.std.specs.Prelude.{◌≡◌, ◌+◌, ◌≤◌, ◌^◌, false, true, length, max, MatchResult, OnErr, OnOk};
ghost use Rattle.off_defs.specs.Counts.{Grew};
ghost use Rattle.off_defs.specs.Told.{one_none};
ghost use Rattle.off_disk.specs.DiskCalls.{HasRead, HasWritten, HasSynced};
ghost use Rattle.off_disk.specs.DiskCalls.{NotRead, NotWritten, NotSynced};
ghost use Rattle.off_file_disk.specs.Untold.{file_seen};

use off_disk::Disk;
use off_outside::{Failed, one_more};
use std::fs::File;
use std::os::unix::fs::FileExt;

/// The greatest length of a disk.
pub(crate) const MOST_BYTES: u64 = 1 << 62;

/// A file as a disk.
#[derive(Drop)]
pub struct FileDisk {
    file: File,
    // As far as it was written. Behind a write that failed the file may be longer.
    size: u64,
    // A sync has failed: the system may have dropped what was written, and the next sync wouldn't
    // tell. So nothing more is written.
    is_broken: bool,
    faults: u64,
    ghost small: { size ≤ 2 ^ 62 },
}

impl FileDisk {
    /// A file of this length, none of whose calls has failed.
    pub(crate) fn new(file: File, size: u64) -> FileDisk
        requires { size ≤ 2 ^ 62 }
        ensures size { result.size ≡ size }
        ensures faults { result.faults ≡ 0 }
    {
        FileDisk {
            file,
            size,
            is_broken: false,
            faults: 0,
        }
    }

    // Counts a call that failed.
    fn fail(&mut self) -> Failed
        ensures size { self.new.size ≡ self.old.size }
        ensures broken { self.new.is_broken ≡ self.old.is_broken }
        ensures faults { Grew 1 self.old.faults self.new.faults }
    {
        self.faults = one_more(self.faults);
        Failed
    }
}

impl Disk for FileDisk {
    ghost seen = { λ s. file_seen s.size s.faults };

    fn length(&self) -> u64 {
        self.size
    }

    fn moment(&self) -> u64 {
        0
    }

    #[tactic(auto, using(crate::proofs::FileLemmas::file_calls))]
    fn read(&mut self, at: u64, out: &mut [u8]) -> Result<(), Failed> {
        match self.file.read_exact_at(out, at) {
            Ok(()) => Ok(()),
            Err(_refused) => Err(self.fail()),
        }
    }

    #[tactic(auto, using(crate::proofs::FileLemmas::file_calls))]
    fn write_at(&mut self, at: u64, piece: &[u8]) -> Result<(), Failed>
        requires { at ≤ (file_seen self.old.size self.old.faults).size }
        ensures told { MatchResult result
            (λ _. HasWritten at piece.now (file_seen self.old.size self.old.faults)
            (file_seen self.new.size self.new.faults))
            (λ _. NotWritten at (length piece.now) (file_seen self.old.size self.old.faults)
            (file_seen self.new.size self.new.faults)) }

        // After a sync that failed nothing is written any more.
        ensures refused { OnOk result (self.old.is_broken ≡ false) }
        ensures broken { self.new.is_broken ≡ self.old.is_broken }
    {
        if self.is_broken || piece.len() as u64 > MOST_BYTES - at {
            return Err(self.fail());
        }
        match self.file.write_all_at(piece, at) {
            Ok(()) => {
                self.size = self.size.max(at + piece.len() as u64);
                Ok(())
            }
            Err(_refused) => Err(self.fail()),
        }
    }

    #[tactic(auto, using(crate::proofs::FileLemmas::file_calls))]
    fn sync(&mut self) -> Result<(), Failed>
        ensures told { MatchResult result
            (λ _. HasSynced (file_seen self.old.size self.old.faults)
            (file_seen self.new.size self.new.faults))
            (λ _. NotSynced (file_seen self.old.size self.old.faults)
            (file_seen self.new.size self.new.faults)) }

        // After a sync that failed no later one says that all is well.
        ensures refused { OnOk result (self.old.is_broken ≡ false) }
        ensures breaks { OnErr result (self.new.is_broken ≡ true) }
    {
        if !self.is_broken && self.file.sync_data().is_ok() {
            return Ok(());
        }
        self.is_broken = true;
        Err(self.fail())
    }

    ghost one_bytes = { λ _. one_none };

    ghost lengths = { λ _ _ told. absurd told };

    ghost reads_as_left = { λ _ _ told. absurd told };

    ghost small = { λ s. s.small };
}
