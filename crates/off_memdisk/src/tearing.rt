//! Images that a crash may leave of a disk in memory.
ghost use Rattle.std.specs.Prelude.{◌≡◌, ◌+◌, ◌≤◌, length, take, drop, vec_len, OnOk, IfOk};
ghost use Rattle.off_memdisk.specs.MemDisks.{calls_of, total_of, reads_after, LeftBy, AllFit};
ghost use Rattle.off_disk.specs.DiskCalls.{Torn};
ghost use Rattle.off_memdisk.specs.Tearing.{CanStep, Steps};

use crate::mem_disk::Mark;
use crate::writing::{copy_of, put_bytes};
use off_base::NoMemory;
use std::alloc::Global;

/// How a write is torn.
#[derive(Clone, Copy, PartialEq, Eq)]
pub(crate) enum Tear {
    // All of it came to the disk.
    Whole,
    // Nothing of it did.
    Lost,
    // Its first half did.
    Front,
    // Its second half did, and zeros stand before.
    Back,
    // Bytes of 1 did, or of 255.
    Ones,
    Full,
    // Its first half did, and bytes of 255 stand behind.
    Spoilt,
}

// What a disk reads as after some of its calls, and what a crash there may leave. `taken` is how
// many of the pieces' bytes were written.
#[derive(Drop)]
pub(crate) struct Replay {
    pub(crate) reads: Vec<u8>,
    pub(crate) image: Vec<u8>,
    pub(crate) taken: usize,
}

// The image that a number picks, of a disk that began with `base` and had these calls.
pub(crate) fn image_of(
    alloc: Global,
    base: &[u8],
    marks: &[Mark],
    pieces: &[u8],
    pick: u64,
) -> Result<Vec<u8>, NoMemory>
    requires joined { total_of marks.now ≡ length pieces.now }
    requires fit { AllFit base.now (calls_of marks.now pieces.now) }
    ensures left { IfOk result (λ image.
        LeftBy base.now (λ b. b ≡ base.now) (calls_of marks.now pieces.now) image.items) }
    ensures short { IfOk result (λ image.
        vec_len image ≤ length (reads_after base.now (calls_of marks.now pieces.now))) }
{
    let mut replay = Replay {
        reads: copy_of(alloc, base)?,
        image: copy_of(alloc, base)?,
        taken: 0,
    };
    let mut left = marks;
    while let Some((mark, rest)) = left.split_first() {
        step(
            alloc,
            &mut replay,
            *mark,
            pieces,
            tear_of(pick, rest.is_empty()),
        )?;
        left = rest;
    }
    Ok(replay.image)
}

// One call more: behind a sync the image is what the disk reads as, and a write is torn in it.
fn step(
    alloc: Global,
    replay: &mut Replay,
    mark: Mark,
    pieces: &[u8],
    tear: Tear,
) -> Result<(), NoMemory>
    requires { CanStep mark (length pieces.now) replay.old }
    ensures { OnOk result (Steps mark pieces.now replay.old replay.new) }
{
    match mark {
        Mark::Synced => {
            replay.image = copy_of(alloc, &replay.reads)?;
            Ok(())
        }
        Mark::Wrote(at, len) => {
            let piece = piece_of(pieces, replay.taken, len);
            let came = came_of(alloc, piece, tear)?;
            put_bytes(&mut replay.reads, at as usize, piece)?;
            put_within(&mut replay.image, at as usize, &came)?;
            replay.taken += len;
            Ok(())
        }
    }
}

// So many bytes from a place on.
fn piece_of(pieces: &[u8], from: usize, len: usize) -> &[u8]
    requires { from + len ≤ length pieces.now }
    ensures bytes { result.now ≡ take len (drop from pieces.now) }
    ensures len { length result.now ≡ len }
{
    &pieces[from..from + len]
}

// Writes into an image. A write that would begin past its end is lost.
fn put_within(image: &mut Vec<u8>, at: usize, piece: &[u8]) -> Result<(), NoMemory>
    ensures { OnOk result (Torn at (length piece.now) image.old.items image.new.items) }
{
    if at > image.len() {
        return Ok(());
    }
    put_bytes(image, at, piece)
}

// How a number tears a write, the last one or another.
fn tear_of(pick: u64, is_last: bool) -> Tear {
    match pick % 8 {
        0 => Tear::Whole,
        1 => Tear::Lost,
        2 => Tear::Front,
        3 => Tear::Back,
        4 => Tear::Ones,
        5 => Tear::Full,
        6 => spoilt_unless(is_last),
        _ => spoilt_unless(!is_last),
    }
}

fn spoilt_unless(is_whole: bool) -> Tear {
    if is_whole { Tear::Whole } else { Tear::Spoilt }
}

// What comes to the disk of a torn write.
fn came_of(alloc: Global, piece: &[u8], tear: Tear) -> Result<Vec<u8>, NoMemory>
    ensures { IfOk result (λ came. vec_len came ≤ length piece.now) }
{
    let mut came = Vec::new(alloc);
    for j in 0..count_of(tear, piece.len()) {
        let Ok(()) = came.push(byte_of(tear, j, piece.len(), piece[j])) else {
            return Err(NoMemory);
        };
    }
    Ok(came)
}

// How many bytes come to the disk.
fn count_of(tear: Tear, len: usize) -> usize
    ensures { result ≤ len }
{
    match tear {
        Tear::Lost => 0,
        Tear::Front => len / 2,
        _ => len,
    }
}

// What comes of a byte, in the first half or the second.
fn byte_of(tear: Tear, place: usize, len: usize, byte: u8) -> u8 {
    let is_front = place < len / 2;
    match tear {
        Tear::Back if is_front => 0,
        Tear::Ones => 1,
        Tear::Full => 255,
        Tear::Spoilt if !is_front => 255,
        _ => byte,
    }
}
