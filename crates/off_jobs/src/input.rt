ghost use Rattle.std.specs.Prelude.{◌≡◌, ◌+◌, ◌<◌, ◌≤◌, ◌^◌, length, MatchResult};
ghost use Rattle.off_jobs.specs.Input.{ReadsInput, TookPiece, NoPiece};

use off_base::{Bytes, NoMemory};
use off_outside::{Failed, Source};
use std::alloc::Global;

// How many bytes are asked for at a time.
const ROOM: usize = 4096;

/// Why a job has no input.
#[derive(Clone, Copy, PartialEq, Eq)]
pub enum InputErr {
    /// The source holds more bytes than a job takes.
    TooLong,
    /// The source failed.
    Failed,
    /// Memory was refused.
    Memory,
}

/// All bytes of the source, to its end. Where there are more than `most`, one over them is read.
pub fn read_input<S: Source>(alloc: Global, most: usize, source: &mut S) -> Result<Bytes, InputErr>
    requires { most < 2 ^ 32 }
    ensures { ReadsInput most result (S.seen source.old) (S.seen source.new) }
{
    let mut bytes = Bytes::new(alloc);
    while bytes.len() <= most {
        match read_piece(source, most + 1 - bytes.len(), &mut bytes) {
            Ok(0) => return Ok(bytes),
            Ok(_count) => {}
            Err(err) => return Err(err),
        }
    }
    Err(InputErr::TooLong)
}

// Reads at most `room` more bytes, and answers how many there were.
fn read_piece<S: Source>(source: &mut S, room: usize, bytes: &mut Bytes) -> Result<usize, InputErr>
    requires { 0 < room }
    ensures { MatchResult result
        (λ count. TookPiece count room bytes.old bytes.new (S.seen source.old) (S.seen source.new))
        (λ err. NoPiece err room (S.seen source.old) (S.seen source.new)) }
{
    let mut piece = [0u8; ROOM];
    let asked = room.min(ROOM);
    match source.read(&mut piece[..asked]) {
        Ok(0) => Ok(0),
        Ok(count) => match bytes.push_all(&piece[..count]) {
            Ok(()) => Ok(count),
            Err(NoMemory) => Err(InputErr::Memory),
        },
        Err(Failed) => Err(InputErr::Failed),
    }
}
