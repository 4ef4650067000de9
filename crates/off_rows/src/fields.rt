ghost use Rattle.std.specs.Prelude.{◌≡◌, ◌≢◌, ℕ, ◌+◌, ◌<◌, ◌≤◌, ◌^◌, List, [], ◌∷◌, ◌++◌, length};
ghost use Rattle.std.specs.Prelude.{MatchResult, MatchOption, MatchBool, Contains, FitsSigned};
ghost use Rattle.std.specs.Int.{to_be_bytes, cast_unsigned, w16, w32, w64};
ghost use Rattle.off_rows.specs.RowBytes.{counted, flag_bytes, import_kind_bytes};
ghost use Rattle.off_rows.specs.RowBytes.{IsText};
ghost use Rattle.off_rows.specs.BadRow.{bytes_of, one_of, text, secret, settings};
ghost use Rattle.off_rows.specs.Reading.{TakesField, TakesCounted, TakesSpelled};
ghost use Rattle.off_rows.specs.Reading.{FieldFails, FailsSpelled};
ghost use Rattle.off_rows.specs.Reading.{IsLeft, IsSettings};
ghost use Rattle.off_rows.specs.declared.faults.RowErr.TheVariants.{BadRow};

use crate::faults::RowErr;
use off_base::{Ip4, Mac, NotShort, Secret, Short};
use off_defs::ImportKind;
use off_tlv::{ReadFault, extent};
use std::marker::Model;

// A walk over the fields of a row.
#[derive(Drop)]
pub(crate) struct Fields<'a> {
    bytes: &'a [u8],
    place: usize,
}

impl<'a> Model for Fields<'a> {
    ghost use Rattle.std.specs.Prelude.{◌≤◌, length, drop};
    ghost use Rattle.off_rows.specs.Left.{Left};

    ghost Value = { Left };

    ghost view = { λ f. record { place = f.place; rest = drop f.place f.bytes.now } };

    ghost invariant = { λ f. f.place ≤ length f.bytes.now };
}

impl<'a> Fields<'a> {
    // A walk that begins at the first byte.
    pub(crate) fn over(bytes: &'a [u8]) -> Fields<'a>
        ensures { result ≡ record { place = 0; rest = bytes.now } }
    {
        Fields { bytes, place: 0 }
    }

    // The end of the row.
    pub(crate) fn end(&self) -> Result<(), RowErr>
        ensures { MatchResult result (λ _. self.now.rest ≡ []) (IsLeft self.now) }
    {
        if self.place < self.bytes.len() {
            return Err(RowErr::BadRow(self.place));
        }
        Ok(())
    }

    // One byte.
    pub(crate) fn byte(&mut self) -> Result<u8, RowErr>
        ensures { MatchResult result
            (λ byte. (byte < 256) × TakesField (bytes_of 1) (byte ∷ []) self.old self.new)
            (FieldFails (bytes_of 1) self.old) }
    {
        let bytes = self.array::<1>()?;
        Ok(bytes[0])
    }

    // An array of bytes.
    pub(crate) fn array<const N: usize>(&mut self) -> Result<[u8; N], RowErr>
        ensures { MatchResult result (λ bytes. TakesField (bytes_of N) bytes self.old self.new)
            (FieldFails (bytes_of N) self.old) }
    {
        let place = self.place;
        match self.bytes[place..].first_chunk() {
            Some(bytes) => {
                self.place = place + N;
                Ok(*bytes)
            }
            None => Err(RowErr::BadRow(place)),
        }
    }

    // A number of four bytes.
    pub(crate) fn number(&mut self) -> Result<u32, RowErr>
        ensures { MatchResult result
            (λ number. (number < 2 ^ 32)
            × TakesField (bytes_of 4) (to_be_bytes w32 number) self.old self.new)
            (FieldFails (bytes_of 4) self.old) }
    {
        let bytes = self.array::<4>()?;
        Ok(u32::from_be_bytes(bytes))
    }

    // A number of eight bytes.
    pub(crate) fn long(&mut self) -> Result<u64, RowErr>
        ensures { MatchResult result
            (λ number. (number < 2 ^ 64)
            × TakesField (bytes_of 8) (to_be_bytes w64 number) self.old self.new)
            (FieldFails (bytes_of 8) self.old) }
    {
        let bytes = self.array::<8>()?;
        Ok(number_of(&bytes))
    }

    // A signed number of four bytes, in two's complement.
    pub(crate) fn offset(&mut self) -> Result<i32, RowErr>
        ensures { MatchResult result
            (λ offset. FitsSigned w32 offset
            × TakesField (bytes_of 4) (to_be_bytes w32 (cast_unsigned w32 offset))
            self.old self.new)
            (FieldFails (bytes_of 4) self.old) }
    {
        let number = self.number()?;
        Ok(number.cast_signed())
    }

    // An address.
    pub(crate) fn address(&mut self) -> Result<Ip4, RowErr>
        ensures { MatchResult result
            (λ address. (address.0 < 2 ^ 32)
            × TakesField (bytes_of 4) (to_be_bytes w32 address.0) self.old self.new)
            (FieldFails (bytes_of 4) self.old) }
    {
        let number = self.number()?;
        Ok(Ip4(number))
    }

    // A hardware address.
    pub(crate) fn mac(&mut self) -> Result<Mac, RowErr>
        ensures { MatchResult result
            (λ mac. (length mac.0 ≡ 6) × TakesField (bytes_of 6) mac.0 self.old self.new)
            (FieldFails (bytes_of 6) self.old) }
    {
        let bytes = self.array::<6>()?;
        Ok(Mac(bytes))
    }

    // One byte of these, and its place among them.
    pub(crate) fn one_of(&mut self, marks: &[u8]) -> Result<u8, RowErr>
        ensures { MatchResult result
            (λ mark. Contains marks.now mark
            × TakesField (one_of marks.now) (mark ∷ []) self.old self.new)
            (FieldFails (one_of marks.now) self.old) }
    {
        let place = self.place;
        if place == self.bytes.len() {
            return Err(RowErr::BadRow(place));
        }
        let mark = self.bytes[place];
        if !marks.contains(&mark) {
            return Err(RowErr::BadRow(place));
        }
        self.place = place + 1;
        Ok(mark)
    }

    // Whether a byte is 1, and not 0.
    pub(crate) fn flag(&mut self) -> Result<bool, RowErr>
        ensures { MatchResult result
            (λ flag. TakesField (one_of (0 ∷ 1 ∷ [])) (flag_bytes flag) self.old self.new)
            (FieldFails (one_of (0 ∷ 1 ∷ [])) self.old) }
    {
        let mark = self.one_of(&[0, 1])?;
        Ok(mark == 1)
    }

    // The kind of an import.
    pub(crate) fn import_kind(&mut self) -> Result<ImportKind, RowErr>
        ensures { MatchResult result
            (λ kind. TakesField (one_of (1 ∷ 2 ∷ [])) (import_kind_bytes kind) self.old self.new)
            (FieldFails (one_of (1 ∷ 2 ∷ [])) self.old) }
    {
        let mark = self.one_of(&[1, 2])?;
        if mark == 1 {
            Ok(ImportKind::Subscribers)
        } else {
            Ok(ImportKind::Modems)
        }
    }

    // A length in one byte, and so many bytes.
    fn counted(&mut self) -> Result<&'a [u8], RowErr>
        ensures { MatchResult result (λ held. TakesCounted held.now self.old self.new)
            (λ err. (err ≡ BadRow self.old.place)
            × ((held rest : List ℕ) → self.old.rest ≢ counted held ++ rest)) }
    {
        let place = self.place;
        if place == self.bytes.len() {
            return Err(RowErr::BadRow(place));
        }
        let start = place + 1;
        let length = usize::from(self.bytes[place]);
        if length > self.bytes.len() - start {
            return Err(RowErr::BadRow(place));
        }
        self.place = start + length;
        Ok(&self.bytes[start..start + length])
    }

    // A text.
    pub(crate) fn text(&mut self) -> Result<Short, RowErr>
        ensures { MatchResult result
            (λ held. IsText held × TakesField text (counted held) self.old self.new)
            (FieldFails text self.old) }
    {
        let place = self.place;
        let held = self.counted()?;
        match Short::read(held) {
            Ok(short) => Ok(short),
            Err(NotShort) => Err(RowErr::BadRow(place)),
        }
    }

    // A secret.
    pub(crate) fn secret(&mut self) -> Result<Secret, RowErr>
        ensures { MatchResult result
            (λ held. (length held ≤ 64) × TakesField secret (counted held) self.old self.new)
            (FieldFails secret self.old) }
    {
        let place = self.place;
        let held = self.counted()?;
        match Secret::read(held) {
            Some(secret) => Ok(secret),
            None => Err(RowErr::BadRow(place)),
        }
    }

    // The spelling of settings, behind its length in two bytes.
    pub(crate) fn spelling(&mut self) -> Result<&'a [u8], RowErr>
        ensures { MatchResult result
            (λ held. IsSettings held.now × (length held.now ≤ 65535)
            × TakesSpelled held.now self.old self.new) (FieldFails settings self.old) }
    {
        let place = self.place;
        let held = self.long_counted()?;
        if !is_spelling(held) {
            return Err(RowErr::BadRow(place));
        }
        Ok(held)
    }

    // A length in two bytes, and so many bytes.
    #[tactic(auto, using(crate::proofs::FieldLemmas::spelled_rules))]
    fn long_counted(&mut self) -> Result<&'a [u8], RowErr>
        ensures { MatchResult result
            (λ held. (length held.now ≤ 65535) × TakesSpelled held.now self.old self.new)
            (FailsSpelled self.old) }
    {
        let place = self.place;
        let length = self.length()?;
        match self.front(usize::from(length)) {
            Some(held) => Ok(held),
            None => Err(RowErr::BadRow(place)),
        }
    }

    // A length in two bytes.
    fn length(&mut self) -> Result<u16, RowErr>
        ensures { MatchResult result
            (λ length. (length < 2 ^ 16)
            × TakesField (bytes_of 2) (to_be_bytes w16 length) self.old self.new)
            (FieldFails (bytes_of 2) self.old) }
    {
        let bytes = self.array::<2>()?;
        Ok(u16::from_be_bytes(bytes))
    }

    // So many bytes, where there are so many.
    fn front(&mut self, count: usize) -> Option<&'a [u8]>
        ensures { MatchOption result (length self.old.rest < count)
            (λ held. (length held.now ≡ count) × (self.old.rest ≡ held.now ++ self.new.rest)
            × (self.new.place ≡ self.old.place + count)) }
    {
        let place = self.place;
        if count > self.bytes.len() - place {
            return None;
        }
        self.place = place + count;
        Some(&self.bytes[place..place + count])
    }
}

// The number of eight bytes.
fn number_of(bytes: &[u8; 8]) -> u64
    ensures { to_be_bytes w64 result ≡ bytes.now }
{
    u64::from_be_bytes(*bytes)
}

// Whether settings spell the bytes: then a file of them has no fault but that its end marker is
// missing.
fn is_spelling(bytes: &[u8]) -> bool
    ensures { MatchBool result (IsSettings bytes.now) (¬ IsSettings bytes.now) }
{
    match extent(bytes) {
        Ok(_) => false,
        Err(fault) => is_no_end(fault),
    }
}

fn is_no_end(fault: ReadFault) -> bool
    ensures { MatchBool result (fault ≡ ReadFault.NoEnd) (fault ≢ ReadFault.NoEnd) }
{
    matches!(fault, ReadFault::NoEnd)
}
