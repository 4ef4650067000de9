ghost use Rattle.std.specs.Prelude.{◌≡◌, ◌≤◌, length, IfSome};
ghost use Rattle.off_defs.specs.Told.{one_none};
ghost use Rattle.off_host.specs.Untold.{source_counts, sink_counts};

use crate::system::{is_writable_within, may_wait};
use off_outside::{Failed, Sink, Source, ends_after, one_more};
use std::io::{ErrorKind, Read, Stdin, Stdout, Write};

// How many signals may come between before a read counts as failed.
const MOST_SIGNALS: u32 = 1000;

// So many milliseconds the reader of a pipe may leave it full before a write counts as failed.
const LONGEST_WRITE: i32 = 30_000;

// So many bytes are written at a time where a write may have to wait: a pipe that takes some takes
// so many (POSIX, PIPE_BUF of Linux).
const PART: usize = 4096;

/// Standard input as a source. It tells nothing of its bytes.
#[derive(Drop)]
pub struct StandardInput {
    stream: Stdin,
    faults: u64,
    calls: u64,
    ends: u64,
}

impl StandardInput {
    pub fn new(rt: &HostRuntime) -> StandardInput
        ensures up { (⟦<StandardInput as Source>⟧.seen result).up }
    {
        StandardInput {
            stream: rt.stdin(),
            faults: 0,
            calls: 0,
            ends: 0,
        }
    }
}

impl Source for StandardInput {
    ghost seen = { λ s. source_counts s.faults s.calls s.ends };

    fn read(&mut self, out: &mut [u8]) -> Result<usize, Failed> {
        self.calls = one_more(self.calls);
        match fill(&mut self.stream, out) {
            Some(count) => {
                self.ends = ends_after(count, out.len(), self.ends);
                Ok(count)
            }
            None => {
                self.faults = self.faults.saturating_add(1);
                Err(Failed)
            }
        }
    }

    ghost one_left = { λ _ up. one_none };
}

// Reads once, and again where a signal came between.
fn fill(stream: &mut Stdin, out: &mut [u8]) -> Option<usize>
    ensures { IfSome result (λ count. count ≤ length out.new) }
{
    for _attempt in 0..MOST_SIGNALS {
        match stream.read(out) {
            Ok(count) => return Some(count),
            Err(error) => {
                if error.kind() != ErrorKind::Interrupted {
                    return None;
                }
            }
        }
    }
    None
}

/// Standard output as a sink. It tells nothing of what was written.
#[derive(Drop)]
pub struct StandardOutput {
    stream: Stdout,
    may_wait: bool,
    faults: u64,
    calls: u64,
}

impl StandardOutput {
    pub fn new(rt: &HostRuntime) -> StandardOutput
        ensures up { (⟦<StandardOutput as Sink>⟧.seen result).up }
    {
        StandardOutput {
            stream: rt.stdout(),
            may_wait: may_wait(libc::STDOUT_FILENO),
            faults: 0,
            calls: 0,
        }
    }
}

impl Sink for StandardOutput {
    ghost seen = { λ s. sink_counts s.faults s.calls };

    fn write(&mut self, piece: &[u8]) -> Result<(), Failed> {
        self.calls = one_more(self.calls);
        if self.put(piece) {
            return Ok(());
        }
        self.faults = self.faults.saturating_add(1);
        Err(Failed)
    }

    ghost one_written = { λ _ up. one_none };
}

impl StandardOutput {
    // Writes a piece, and tells whether all of it was written. A pipe that is full and isn't read
    // is given some time.
    fn put(&mut self, piece: &[u8]) -> bool
        ensures faults { self.new.faults ≡ self.old.faults }
        ensures calls { self.new.calls ≡ self.old.calls }
    {
        if !self.may_wait {
            return self.stream.write_all(piece).is_ok();
        }
        for part in piece.chunks(PART) {
            if !is_writable_within(libc::STDOUT_FILENO, LONGEST_WRITE) {
                return false;
            }
            if self.stream.write_all(part).is_err() {
                return false;
            }
        }
        true
    }
}
