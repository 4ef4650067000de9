ghost use Rattle.std.specs.Prelude.{◌≡◌, ◌==◌, ◌<◌, true, length, if◌then◌else◌, slice_index, Err};
ghost use Rattle.std.specs.Prelude.{IfSome, IsOk, is_some, MatchOption};
ghost use Rattle.off_base.specs.Parts.{parts_in, has, values, joined, bytes_of, IsReading};
ghost use Rattle.off_base.specs.Walk.{all_parts, all_values, cursor_at, CursorStands};
ghost use Rattle.off_base.specs.Extents.{IsExtent};

use crate::cursors::JoinedBytes;
use crate::index::Extent;
use crate::parts::{Step, next_part};
use std::marker::Model;

/// The values of all options of one code, joined in their order (RFC 3396, section 7).
///
/// Contracts see those bytes, and `None` where no option has the code. It lies where the options
/// lie, and takes no memory. How many bytes there are is found by one walk, as it is made.
#[derive(Drop)]
pub struct Joined<'a> {
    options: &'a [u8],
    code: u8,
    is_there: bool,
    first: usize,
    len: usize,
}

impl<'a> Model for Joined<'a> {
    ghost use Rattle.std.specs.Prelude.{◌≡◌, Option, List, ℕ, true, length, is_some, IsOk};
    ghost use Rattle.off_base.specs.Parts.{joined, bytes_of, parts_in};
    ghost use Rattle.off_base.specs.Walk.{cursor_at, CursorStands};

    ghost Value = { Option (List ℕ) };

    ghost view = { λ j. joined j.code (parts_in true j.options.now) };

    ghost invariant = { λ j. IsOk (parts_in true j.options.now)
        × (j.is_there ≡ is_some (joined j.code (parts_in true j.options.now)))
        × (j.len ≡ length (bytes_of (joined j.code (parts_in true j.options.now))))
        × CursorStands j.options.now j.code (cursor_at j.first 0) };
}

/// The place of the first option that passes the end of the bytes (RFC 2132, section 2).
#[tactic(auto, unfolding(crate::specs::Parts::parts_in))]
pub fn first_cut(options: &[u8]) -> Option<usize>
    ensures place { MatchOption result (IsOk (parts_in true options.now))
        (λ place. parts_in true options.now ≡ Err place) }
    ensures reading { IsReading true options.now (parts_in true options.now) }
{
    let mut at = 0;
    'parts: loop {
        match next_part(options, at, true) {
            Step::Found(_, place, len) => at = place + 2 + len,
            Step::End => return None,
            Step::Cut(place) => return Some(place),
        }
    }
}

/// How many bytes the options of one code have together, and whether an option of another code is
/// there, by one walk over options of which none passes the end.
pub fn len_and_other(options: &[u8], counted: u8, other: u8) -> (usize, bool)
    requires { IsOk (parts_in true options.now) }
    ensures len { result.0 ≡ length (bytes_of (joined counted (parts_in true options.now))) }
    ensures there { result.1 ≡ is_some (joined other (parts_in true options.now)) }
{
    counted_and_other(options, counted, other)
}

impl<'a> Joined<'a> {
    /// The options of one code among options of which none passes the end.
    pub fn over(options: &'a [u8], code: u8) -> Joined<'a>
        requires { IsOk (parts_in true options.now) }
        ensures { result ≡ joined code (parts_in true options.now) }
    {
        let (len, is_there) = len_and_other(options, code, code);
        Joined {
            options,
            code,
            is_there,
            first: 0,
            len,
        }
    }

    // The options of one code, of which it's known where they stand.
    pub(crate) fn within(options: &'a [u8], code: u8, extent: Extent) -> Joined<'a>
        requires read { IsOk (parts_in true options.now) }
        requires extent { IsExtent options.now code extent }
        ensures { result ≡ joined code (parts_in true options.now) }
    {
        Joined {
            options,
            code,
            is_there: extent.is_there,
            first: extent.first,
            len: extent.len,
        }
    }

    /// Whether an option of the code is there.
    pub fn present(&self) -> bool
        ensures { result ≡ is_some self.now }
    {
        self.is_there
    }

    /// How many bytes there are.
    pub fn len(&self) -> usize
        ensures { result ≡ length (bytes_of self.now) }
    {
        self.len
    }

    /// Whether there are no bytes.
    pub fn is_empty(&self) -> bool
        ensures { result ≡ (length (bytes_of self.now) == 0) }
    {
        self.len() == 0
    }

    /// The byte at a place.
    pub fn byte(&self, i: usize) -> u8
        requires { i < length (bytes_of self.now) }
        ensures { result ≡ slice_index (bytes_of self.now) i }
    {
        let mut bytes = self.bytes();
        bytes.byte_at(i)
    }

    /// The bytes, where all of them stand in the first option.
    pub fn whole(&self) -> Option<&'a [u8]>
        ensures { IfSome result (λ bytes. bytes.now ≡ bytes_of self.now) }
    {
        whole_in(self.options, self.code, self.first, self.len)
    }

    /// The bytes, to be read from the front on.
    pub fn bytes(&self) -> JoinedBytes<'a>
        ensures { result ≡ bytes_of self.now }
    {
        JoinedBytes::over(self.options, self.code, self.first, self.len())
    }
}

#[tactic(auto, unfolding(crate::specs::Parts::parts_in))]
fn counted_and_other(options: &[u8], counted: u8, other: u8) -> (usize, bool)
    requires { IsOk (parts_in true options.now) }
    ensures len { result.0 ≡ length (values counted (all_parts (parts_in true options.now))) }
    ensures there { result.1 ≡ has other (all_parts (parts_in true options.now)) }
{
    let mut at = 0;
    let mut total = 0;
    let mut is_there = false;
    'parts: loop {
        match next_part(options, at, true) {
            Step::Found(code, place, len) => {
                total += len_if(code == counted, len);
                is_there = is_there || code == other;
                at = place + 2 + len;
            }
            Step::End => return (total, is_there),
            Step::Cut(_) => return (total, is_there),
        }
    }
}

// The joined bytes of a code, of which there are so many, where all of them stand in the option at
// or behind the first place.
fn whole_in(options: &[u8], code: u8, first: usize, len: usize) -> Option<&[u8]>
    requires stands { CursorStands options.now code (cursor_at first 0) }
    requires counted { len ≡ length (all_values code options.now) }
    ensures { IfSome result (λ bytes. bytes.now ≡ all_values code options.now) }
{
    match next_part(options, first, true) {
        Step::Found(found, place, here) => {
            if found == code && here == len {
                Some(&options[place + 2..place + 2 + here])
            } else {
                None
            }
        }
        Step::End => None,
        Step::Cut(_) => None,
    }
}

// The length, where it counts.
pub(crate) fn len_if(counts: bool, len: usize) -> usize
    ensures { result ≡ (if counts then len else 0) }
{
    if counts { len } else { 0 }
}
