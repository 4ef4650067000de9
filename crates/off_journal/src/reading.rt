ghost use Rattle.std.specs.Prelude.{◌≡◌, ◌≢◌, ℕ, ◌+◌, ◌<◌, ◌≤◌, ◌^◌, ◌++◌, [], ◌∷◌, List, length};
ghost use Rattle.std.specs.Prelude.{MatchResult, MatchOption, OnOk};
ghost use Rattle.std.specs.Int.{to_be_bytes, w32};
ghost use Rattle.off_defs.specs.declared.keys.Key.{Key};
ghost use Rattle.off_defs.specs.declared.writes.Write.{Write};
ghost use Rattle.off_rows.specs.KeyBytes.{key_bytes, IsRanged};
ghost use Rattle.off_rows.specs.RowBytes.{counted, row_bytes, IsRowOf};
ghost use Rattle.off_rows.specs.Reading.{WhyNoRow};
ghost use Rattle.off_spelled.specs.Storable.{IsSpelled, AllSpelled};
ghost use Rattle.off_journal.specs.Payload.{write_bytes, payload_of, put_row};
ghost use Rattle.off_journal.specs.Reading.{WhyNoPayload, WhyNoWrite, WhyNoPut, WhyNoRowOf};

use off_base::NoMemory;
use off_defs::{Key, Row, Write};
use off_rows::{RowErr, decode, decode_key};
use std::alloc::Global;

/// Why a payload wasn't read.
#[derive(Clone, Copy, PartialEq, Eq)]
pub(crate) enum PayloadErr {
    // No writes have these bytes.
    Bad,
    Memory,
}

impl From<NoMemory> for PayloadErr {
    ghost use Rattle.std.specs.Prelude.{◌≡◌};
    ghost use Rattle.off_journal.specs.declared.reading.PayloadErr.TheVariants.{Memory};

    ghost from_gives = { λ refused err. err ≡ Memory };

    fn from(_refused: NoMemory) -> PayloadErr {
        PayloadErr::Memory
    }
}

// The writes that have these bytes.
#[tactic(auto, using(crate::proofs::PayloadLemmas::why_none))]
pub(crate) fn read_payload(alloc: Global, bytes: &[u8]) -> Result<Vec<Write>, PayloadErr>
    ensures { MatchResult result
        (λ writes. AllSpelled writes.items × (payload_of writes.items ≡ bytes.now))
        (WhyNoPayload bytes.now) }
{
    let mut writes = Vec::new(alloc);
    let mut rest = bytes;
    while !rest.is_empty() {
        match read_write(alloc, rest) {
            Ok((write, after)) => {
                add_write(&mut writes, write)?;
                rest = after;
            }
            Err(err) => return Err(err),
        }
    }
    Ok(writes)
}

fn add_write(writes: &mut Vec<Write>, write: Write) -> Result<(), NoMemory>
    ensures { OnOk result (writes.new.items ≡ writes.old.items ++ write ∷ []) }
{
    match writes.push(write) {
        Ok(()) => Ok(()),
        Err(_refused) => Err(NoMemory),
    }
}

// The write at the front, and what stands behind it.
#[tactic(auto, using(crate::proofs::PayloadLemmas::no_write))]
fn read_write(alloc: Global, bytes: &[u8]) -> Result<(Write, &[u8]), PayloadErr>
    ensures { MatchResult result
        (λ x. IsSpelled x.0 × (bytes.now ≡ write_bytes x.0 ++ x.1.now))
        (WhyNoWrite bytes.now) }
{
    let Some((mark, behind)) = bytes.split_first() else {
        return Err(PayloadErr::Bad);
    };
    let Some((key, rest)) = read_key(behind) else {
        return Err(PayloadErr::Bad);
    };
    match *mark {
        1 => match read_put(alloc, key, rest) {
            Ok((row, after)) => Ok((Write::Put(key, row), after)),
            Err(err) => Err(err),
        },
        2 => Ok((Write::Drop(key), rest)),
        _ => Err(PayloadErr::Bad),
    }
}

// A key behind its length.
fn read_key(bytes: &[u8]) -> Option<(Key, &[u8])>
    ensures { MatchOption result
        ((key : Key) (rest : List ℕ) → IsRanged key → bytes.now ≢ counted (key_bytes key) ++ rest)
        (λ x. IsRanged x.0 × (bytes.now ≡ counted (key_bytes x.0) ++ x.1.now)) }
{
    let (length, behind) = bytes.split_first()?;
    let (held, rest) = split_front(behind, usize::from(*length))?;
    let key = decode_key(held)?;
    Some((key, rest))
}

// So many bytes, and the rest.
fn split_front(bytes: &[u8], count: usize) -> Option<(&[u8], &[u8])>
    ensures { MatchOption result (length bytes.now < count)
        (λ x. (length x.0.now ≡ count) × (bytes.now ≡ x.0.now ++ x.1.now)) }
{
    if count > bytes.len() {
        return None;
    }
    Some((&bytes[..count], &bytes[count..]))
}

// A row behind its length in four bytes.
fn read_row(bytes: &[u8]) -> Option<(&[u8], &[u8])>
    ensures { MatchOption result
        ((held rest : List ℕ) → length held < 2 ^ 32
        → bytes.now ≢ (to_be_bytes w32 (length held) ++ held) ++ rest)
        (λ x. (length x.0.now < 2 ^ 32)
        × (bytes.now ≡ (to_be_bytes w32 (length x.0.now) ++ x.0.now) ++ x.1.now)) }
{
    let [a, b, c, d, behind @ ..] = bytes else {
        return None;
    };
    let length = u32::from_be_bytes([*a, *b, *c, *d]);
    split_front(behind, length as usize)
}

// A row of the key behind its length, and the rest.
#[tactic(auto, using(crate::proofs::PayloadLemmas::no_put))]
fn read_put(alloc: Global, key: Key, bytes: &[u8]) -> Result<(Row, &[u8]), PayloadErr>
    ensures { MatchResult result
        (λ x. IsRowOf key x.0 × (bytes.now ≡ put_row x.0 ++ x.1.now))
        (WhyNoPut key bytes.now) }
{
    let Some((held, rest)) = read_row(bytes) else {
        return Err(PayloadErr::Bad);
    };
    match row_of(alloc, &key, held) {
        Ok(row) => Ok((row, rest)),
        Err(err) => Err(err),
    }
}

// The row of the key that has these bytes.
fn row_of(alloc: Global, key: &Key, bytes: &[u8]) -> Result<Row, PayloadErr>
    ensures { MatchResult result (λ row. IsRowOf key.now row × (row_bytes row ≡ bytes.now))
        (WhyNoRowOf key.now bytes.now) }
{
    match decode(alloc, key, bytes) {
        Ok(row) => Ok(row),
        Err(err) => Err(why_none(err)),
    }
}

fn why_none(err: RowErr) -> PayloadErr
    ensures { (key : Key) (bytes : List ℕ) → WhyNoRow key bytes err → WhyNoRowOf key bytes result }
{
    match err {
        RowErr::Memory => PayloadErr::Memory,
        RowErr::BadRow(_place) => PayloadErr::Bad,
    }
}
