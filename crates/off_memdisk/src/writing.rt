//! Bytes written over others.
ghost use Rattle.std.specs.Prelude.{◌≡◌, ◌+◌, ◌<◌, ◌≤◌, ◌++◌, [], ◌∷◌};
ghost use Rattle.std.specs.Prelude.{length, take, drop, OnOk, IsOk, IfOk, vec_len};
ghost use Rattle.std.specs.Vec.{vec_capacity};
ghost use Rattle.off_memdisk.specs.MemDisks.{written_in};

use off_base::NoMemory;
use std::alloc::Global;

/// Writes over what is there, and past the end.
pub(crate) fn put_bytes(bytes: &mut Vec<u8>, at: usize, piece: &[u8]) -> Result<(), NoMemory>
    requires { at ≤ vec_len bytes.old }
    ensures ok { OnOk result (bytes.new.items ≡ written_in bytes.old.items at piece.now) }
    ensures capacity { vec_capacity bytes.old ≤ vec_capacity bytes.new }
    ensures succeeds { vec_len bytes.old + length piece.now ≤ vec_capacity bytes.old → IsOk result }
{
    let over = piece.len().min(bytes.len() - at);
    put_over(bytes.as_mut_slice(), at, &piece[..over]);
    match bytes.extend_from_slice(&piece[over..]) {
        Ok(()) => Ok(()),
        Err(_refused) => Err(NoMemory),
    }
}

// Writes over what is there.
fn put_over(bytes: &mut [u8], at: usize, piece: &[u8])
    requires { at + length piece.now ≤ length bytes.old }
    ensures { bytes.new
        ≡ take at bytes.old ++ (piece.now ++ drop (at + length piece.now) bytes.old) }
{
    bytes[at..at + piece.len()].copy_from_slice(piece);
}

/// Writes where there is room for it.
pub(crate) fn put_in_room(bytes: &mut Vec<u8>, at: usize, piece: &[u8])
    requires within { at ≤ vec_len bytes.old }
    requires room { vec_len bytes.old + length piece.now ≤ vec_capacity bytes.old }
    ensures bytes { bytes.new.items ≡ written_in bytes.old.items at piece.now }
    ensures capacity { vec_capacity bytes.old ≤ vec_capacity bytes.new }
{
    let Ok(()) = put_bytes(bytes, at, piece) else {
        unreachable!()
    };
}

/// Puts one more behind the others, where there is room for it.
pub(crate) fn push_in_room<T: Drop>(items: &mut Vec<T>, item: T)
    requires { vec_len items.old < vec_capacity items.old }
    ensures items { items.new.items ≡ items.old.items ++ item ∷ [] }
    ensures capacity { vec_capacity items.old ≤ vec_capacity items.new }
{
    let Ok(()) = items.push(item) else {
        unreachable!()
    };
}

/// A copy of the bytes.
pub(crate) fn copy_of(alloc: Global, bytes: &[u8]) -> Result<Vec<u8>, NoMemory>
    ensures { IfOk result (λ copy. copy.items ≡ bytes.now) }
{
    let mut copy = Vec::new(alloc);
    copy.extend_from_slice(bytes)?;
    Ok(copy)
}
