ghost use Rattle.std.specs.Prelude.{◌≡◌, ◌+◌, ◌<◌, ◌≤◌, ◌^◌, true, length, slice_set};
ghost use Rattle.std.specs.Prelude.{MatchResult, IsOk, Err};
ghost use Rattle.off_base.specs.Parts.{parts_in, joined};
ghost use Rattle.off_base.specs.Extents.{slot_of, extended, extent_at, AreExtents};

use crate::joined::Joined;
use crate::parts::{Step, next_part};
use std::marker::Model;

/// Where the options of one code stand: whether there is one, the place of the first one's code,
/// and how many bytes all of them have together.
#[derive(Clone, Copy)]
pub struct Extent {
    pub(crate) is_there: bool,
    pub(crate) first: usize,
    pub(crate) len: usize,
}

const NO_EXTENT: Extent = Extent {
    is_there: false,
    first: 0,
    len: 0,
};

// How many codes the office asks for.
const ASKED: usize = 8;

/// Options of which none passes the end (RFC 2132, section 2), and where those stand that the
/// office asks for: one walk over a message finds them all.
///
/// Contracts see the bytes of the options, in which it lies.
#[derive(Drop)]
pub struct OptionIndex<'a> {
    options: &'a [u8],
    extents: [Extent; 9],
}

impl<'a> Model for OptionIndex<'a> {
    ghost use Rattle.std.specs.Prelude.{◌≡◌, List, ℕ, true, length, IsOk};
    ghost use Rattle.off_base.specs.Parts.{parts_in};
    ghost use Rattle.off_base.specs.Extents.{AreExtents};

    ghost Value = { List ℕ };

    ghost view = { λ i. i.options.now };

    ghost invariant = { λ i. IsOk (parts_in true i.options.now)
        × (length i.extents ≡ 9)
        × AreExtents i.options.now i.extents };
}

impl<'a> OptionIndex<'a> {
    /// Goes over the options once. `Err` is the place of the first one that passes the end.
    pub fn read(options: &'a [u8]) -> Result<OptionIndex<'a>, usize>
        ensures index { MatchResult result (λ index. index ≡ options.now)
            (λ place. parts_in true options.now ≡ Err place) }
        ensures uncut { MatchResult result (λ _. IsOk (parts_in true options.now))
            (λ place. parts_in true options.now ≡ Err place) }
    {
        match extents_in(options) {
            Ok(extents) => Ok(OptionIndex { options, extents }),
            Err(place) => Err(place),
        }
    }

    /// The values of all options of a code, joined in their order (RFC 3396, section 7). For a code
    /// that the office doesn't ask for it takes a walk.
    pub fn option(&self, code: u8) -> Joined<'a>
        ensures { result ≡ joined code (parts_in true self.now) }
    {
        let slot = slot_of(code);
        if slot < ASKED {
            Joined::within(self.options, code, self.extents[slot])
        } else {
            Joined::over(self.options, code)
        }
    }
}

// The extents of the codes that are asked for, or the place of the first option that passes the
// end.
fn extents_in(options: &[u8]) -> Result<[Extent; 9], usize>
    ensures { MatchResult result
        (λ extents. IsOk (parts_in true options.now) × (length extents ≡ 9)
        × AreExtents options.now extents)
        (λ place. parts_in true options.now ≡ Err place) }
{
    let mut extents = [NO_EXTENT; 9];
    let mut at = 0;
    'parts: loop {
        match next_part(options, at, true) {
            Step::Found(code, place, len) => {
                extend(&mut extents, code, place, len);
                at = place + 2 + len;
            }
            Step::End => return Ok(extents),
            Step::Cut(place) => return Err(place),
        }
    }
}

// Takes one more option into the extent of its code.
fn extend(extents: &mut [Extent], code: u8, place: usize, len: usize)
    requires slots { length extents.old ≡ 9 }
    requires room { (extent_at extents.old code).len + len < 2 ^ 64 }
    ensures { extents.new ≡ slice_set extents.old (slot_of code)
        (extended (extent_at extents.old code) place len) }
{
    let slot = slot_of(code);
    let extent = extents[slot];
    extents[slot] = extended(extent, place, len);
}

fn extended(extent: Extent, place: usize, len: usize) -> Extent
    requires { extent.len + len < 2 ^ 64 }
    ensures { result ≡ extended extent place len }
{
    Extent {
        is_there: true,
        first: if extent.is_there { extent.first } else { place },
        len: extent.len + len,
    }
}

// Where the extent of a code is kept. All codes that aren't asked for share the last place.
fn slot_of(code: u8) -> usize
    ensures slot { result ≡ slot_of code }
    ensures within { result ≤ 8 }
{
    match code {
        43 => 0,
        50 => 1,
        52 => 2,
        53 => 3,
        54 => 4,
        60 => 5,
        61 => 6,
        82 => 7,
        _ => 8,
    }
}
