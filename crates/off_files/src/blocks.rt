ghost use Rattle.std.specs.Prelude.{◌≡◌, ◌+◌, ◌≤◌, ◌++◌, length, take, drop};
ghost use Rattle.off_file_rules.specs.Block.{block};
ghost use Rattle.off_files.specs.Written.{StandsInFront};

use crate::bodies::Body;
use crate::tails::FileTail;

/// A block of a file: what the body has of it, and what the tail has of it behind that.
#[derive(Clone, Copy)]
pub struct BlockPieces<'a> {
    pub first: &'a [u8],
    pub rest: &'a [u8],
}

/// Block `n` of a file in its two pieces (RFC 1350, section 2). The file is the body with the tail
/// behind it; blocks count from 1. It takes no memory.
pub fn pieces<'a>(body: &'a Body, tail: &'a FileTail, size: u16, n: u32) -> BlockPieces<'a>
    requires { 1 ≤ n }
    ensures bytes { result.first.now ++ result.rest.now ≡ block (body.now ++ tail.now) size n }
    ensures few { length result.first.now + length result.rest.now ≤ size }
{
    let size = usize::from(size);
    let start = (n as usize - 1) * size;
    let first = part(body.as_slice(), start, size);
    let rest = part(
        tail.as_slice(),
        start.saturating_sub(body.len()),
        size - first.len(),
    );
    BlockPieces { first, rest }
}

/// Writes block `n` of a file to the front of `out`, and answers its length (RFC 1350, section 2).
/// The file is the body with the tail behind it; blocks count from 1. It takes no memory.
pub fn block(body: &Body, tail: &FileTail, size: u16, n: u32, out: &mut [u8]) -> usize
    requires room { size ≤ length out.old }
    requires counted { 1 ≤ n }
    ensures written { StandsInFront (block (body.now ++ tail.now) size n) out.old out.new }
    ensures len { result ≡ length (block (body.now ++ tail.now) size n) }
    ensures few { result ≤ size }
{
    let block = pieces(body, tail, size, n);
    put_two(block.first, block.rest, out)
}

// At most so many of the bytes from a place on.
fn part(bytes: &[u8], from: usize, most: usize) -> &[u8]
    ensures bytes { result.now ≡ take most (drop from bytes.now) }
    ensures few { length result.now ≤ most }
{
    if from >= bytes.len() {
        return &[];
    }
    let rest = &bytes[from..];
    if rest.len() <= most {
        rest
    } else {
        &rest[..most]
    }
}

// Writes two pieces to the front of `out`, one behind the other, and answers their length.
fn put_two(first: &[u8], rest: &[u8], out: &mut [u8]) -> usize
    requires { length first.now + length rest.now ≤ length out.old }
    ensures written { StandsInFront (first.now ++ rest.now) out.old out.new }
    ensures len { result ≡ length (first.now ++ rest.now) }
{
    let end = first.len() + rest.len();
    out[..first.len()].copy_from_slice(first);
    out[first.len()..end].copy_from_slice(rest);
    end
}
