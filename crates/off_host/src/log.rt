ghost use Rattle.std.specs.Prelude.{◌≡◌, ◌+◌, ◌≤◌, ◌++◌, [], length, not, true, false};
ghost use Rattle.off_host.specs.Untold.{sink_counts};
ghost use Rattle.off_defs.specs.Told.{one_none};

use crate::standard::StandardOutput;
use arrayvec::ArrayVec;
use off_base::NoMemory;
use off_outside::{Failed, Sink, one_more};
use std::cell::RefCell;
use std::rc::Rc;

// So many bytes wait at most: what a pipe takes whole (POSIX, PIPE_BUF of Linux).
const MOST_WAITING: usize = 4096;

/// The log of an office that serves, on standard output. Its lines wait, and go out by one write
/// where the link asks the system for more, which it does before it sleeps and behind 32 events at
/// most, or where 4,096 bytes would be passed.
#[derive(Drop)]
pub struct Log {
    lines: Rc<RefCell<Waiting>>,
}

// Lines that wait.
#[derive(Drop)]
struct Waiting {
    output: StandardOutput,
    bytes: ArrayVec<u8, MOST_WAITING>,
    // Whether standard output has refused some of what it was to take.
    is_lost: bool,
}

impl Log {
    /// A log in which no line waits.
    pub fn new(rt: &HostRuntime) -> Result<Log, NoMemory> {
        let waiting = Waiting {
            output: StandardOutput::new(rt),
            bytes: ArrayVec::new(),
            is_lost: false,
        };
        match Rc::new(rt.alloc(), RefCell::new(waiting)) {
            Ok(lines) => Ok(Log { lines }),
            Err(_refused) => Err(NoMemory),
        }
    }

    /// The same log, for another owner.
    pub fn share(&self) -> Result<Log, NoMemory> {
        Ok(Log {
            lines: Rc::clone(&self.lines)?,
        })
    }

    /// Has the lines that wait written, and tells whether all of the log was written.
    pub fn flush(&self) -> bool {
        match self.lines.try_borrow_mut() {
            Ok(mut waiting) => waiting.flush(),
            Err(_in_use) => false,
        }
    }

    // Takes a line, and tells whether nothing of the log is lost so far.
    fn take(&self, line: &[u8]) -> bool {
        match self.lines.try_borrow_mut() {
            Ok(mut waiting) => waiting.take(line),
            Err(_in_use) => false,
        }
    }
}

impl Waiting {
    // Takes a line, and tells whether nothing is lost so far. Where there is room it waits behind
    // those that wait already, and nothing is written.
    fn take(&mut self, line: &[u8]) -> bool
        ensures tells { result ≡ not self.new.is_lost }
        ensures lost { self.old.is_lost ≡ true → self.new.is_lost ≡ true }
        ensures waits { self.old.is_lost ≡ false
            → length self.old.bytes.items + length line.now ≤ 4096
            → (self.new.is_lost ≡ false)
            × (self.new.bytes.items ≡ self.old.bytes.items ++ line.now) }
    {
        if line.len() > self.bytes.remaining_capacity() {
            self.flush();
        }
        if !self.is_lost && self.bytes.try_extend_from_slice(line).is_err() {
            self.is_lost = self.output.write(line).is_err();
        }
        !self.is_lost
    }

    // Has all that waits written, and tells whether nothing is lost so far. Behind a write that
    // failed there is none.
    fn flush(&mut self) -> bool
        ensures tells { result ≡ not self.new.is_lost }
        ensures lost { self.old.is_lost ≡ true → self.new.is_lost ≡ true }
        ensures empties { self.old.is_lost ≡ false → self.new.bytes.items ≡ [] }
    {
        if !self.is_lost && !self.bytes.is_empty() {
            self.is_lost = self.output.write(self.bytes.as_slice()).is_err();
            self.bytes.clear();
        }
        !self.is_lost
    }
}

/// The log as a sink. It tells nothing of what was written. A write fails from the first one on
/// that standard output has refused, which may be of lines that were taken before.
#[derive(Drop)]
pub struct LogSink {
    log: Log,
    faults: u64,
    calls: u64,
}

impl LogSink {
    pub fn new(log: Log) -> LogSink
        ensures up { (⟦<LogSink as Sink>⟧.seen result).up }
    {
        LogSink {
            log,
            faults: 0,
            calls: 0,
        }
    }
}

impl Sink for LogSink {
    ghost seen = { λ s. sink_counts s.faults s.calls };

    fn write(&mut self, piece: &[u8]) -> Result<(), Failed> {
        self.calls = one_more(self.calls);
        if self.log.take(piece) {
            return Ok(());
        }
        self.faults = self.faults.saturating_add(1);
        Err(Failed)
    }

    ghost one_written = { λ _ up. one_none };
}
