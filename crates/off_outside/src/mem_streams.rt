ghost use Rattle.std.specs.Prelude.{◌≡◌, ◌≤◌, length, IfOk};
ghost use Rattle.off_defs.specs.Told.{one_exact};
ghost use Rattle.off_outside.specs.Streams.{Draws, Appends};
ghost use Rattle.off_outside.specs.InMemory.{source_seen, sink_seen, SourceTells, SinkTells};
ghost use Rattle.off_outside.specs.InMemory.{new_source, new_sink, MemDraws, MemAppends};

use crate::failing::{Calls, Failing, one_more};
use crate::link::Failed;
use crate::streams::{Sink, Source, ends_after};
use off_base::{Bytes, NoMemory};
use std::alloc::Global;
use std::marker::Model;

/// A source whose bytes are given when it is made.
#[derive(Drop)]
pub struct MemSource {
    bytes: Bytes,
    at: usize,
    failing: Failing,
    faults: u64,
    ends: u64,
}

impl Model for MemSource {
    ghost use Rattle.std.specs.Prelude.{drop, length, ◌≤◌};
    ghost use Rattle.off_outside.specs.InMemory.{MemSourceHeld};

    ghost Value = { MemSourceHeld };

    ghost view = { λ m. record {
      left = drop m.at m.bytes;
      calls = m.failing;
      faults = m.faults;
      ends = m.ends;
    } };

    ghost invariant = { λ m. m.at ≤ length m.bytes };
}

impl MemSource {
    /// A source of these bytes. It takes no memory.
    pub fn new(_alloc: Global, bytes: Bytes, fails: Calls) -> MemSource
        ensures holds { result ≡ new_source bytes fails }
        ensures tells { SourceTells result (⟦<MemSource as Source>⟧.seen result) }
    {
        MemSource {
            bytes,
            at: 0,
            failing: Failing::new(fails),
            faults: 0,
            ends: 0,
        }
    }
}

impl MemSource {
    // Fills `out` as far as there are bytes.
    fn fill(&mut self, out: &mut [u8]) -> Result<usize, Failed>
        ensures { MemDraws result out.old out.new self.old self.new }
    {
        if self.failing.call() {
            self.faults = one_more(self.faults);
            return Err(Failed);
        }
        let left = self.bytes.len() - self.at;
        let count = left.min(out.len());
        let part = &self.bytes.as_slice()[self.at..self.at + count];
        out[..count].copy_from_slice(part);
        self.at += count;
        self.ends = ends_after(count, out.len(), self.ends);
        Ok(count)
    }
}

impl Source for MemSource {
    ghost seen = { λ m. source_seen m };

    fn read(&mut self, out: &mut [u8]) -> Result<usize, Failed>
        ensures room { IfOk result (λ n. n ≤ length out.new) }
        ensures gave { Draws result out.new (source_seen self.old) (source_seen self.new) }
        ensures exact { MemDraws result out.old out.new self.old self.new }
    {
        self.fill(out)
    }

    ghost one_left = { λ m up. one_exact m.left };
}

/// A sink that keeps what is written, in room that was taken when it was made.
#[derive(Drop)]
pub struct MemSink {
    bytes: Vec<u8>,
    room: usize,
    failing: Failing,
    faults: u64,
}

impl Model for MemSink {
    ghost use Rattle.std.specs.Prelude.{◌+◌, ◌≤◌, vec_len};
    ghost use Rattle.std.specs.Vec.{vec_capacity};
    ghost use Rattle.off_outside.specs.InMemory.{MemSinkHeld};

    ghost Value = { MemSinkHeld };

    ghost view = { λ m. record {
      written = m.bytes.items;
      room = m.room;
      calls = m.failing;
      faults = m.faults;
    } };

    ghost invariant = { λ m. vec_len m.bytes + m.room ≤ vec_capacity m.bytes };
}

impl MemSink {
    /// Takes room for `room` bytes. A write past it fills the room, fails, and is counted.
    pub fn new(alloc: Global, room: usize, fails: Calls) -> Result<MemSink, NoMemory>
        ensures holds { IfOk result (λ sink. sink ≡ new_sink room fails) }
        ensures tells { IfOk result (λ sink. SinkTells sink (⟦<MemSink as Sink>⟧.seen sink)) }
    {
        let Ok(bytes) = Vec::with_capacity(alloc, room) else {
            return Err(NoMemory);
        };
        Ok(MemSink {
            bytes,
            room,
            failing: Failing::new(fails),
            faults: 0,
        })
    }

    /// What was written.
    pub fn written(&self) -> &[u8]
        ensures bytes { result.now ≡ self.now.written }
        ensures told { (⟦<MemSink as Sink>⟧.seen self.now).written self.now.written }
    {
        self.bytes.as_slice()
    }
}

impl Sink for MemSink {
    ghost seen = { λ m. sink_seen m };

    fn write(&mut self, piece: &[u8]) -> Result<(), Failed>
        ensures told { Appends result piece.now (sink_seen self.old) (sink_seen self.new) }
        ensures exact { MemAppends result piece.now self.old self.new }
    {
        if self.failing.call() {
            self.faults = one_more(self.faults);
            return Err(Failed);
        }
        if self.room < piece.len() {
            let _front = self.bytes.extend_from_slice(&piece[..self.room]);
            self.room = 0;
            self.faults = one_more(self.faults);
            return Err(Failed);
        }
        let _whole = self.bytes.extend_from_slice(piece);
        self.room -= piece.len();
        Ok(())
    }

    ghost one_written = { λ m up. one_exact m.written };
}
