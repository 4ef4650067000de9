ghost use Rattle.std.specs.Prelude.{◌≡◌, ◌<◌, ◌≤◌, length, slice_index, false};
ghost use Rattle.off_base.specs.Parts.{is_mark};
ghost use Rattle.off_base.specs.Walk.{Finds};

use crate::readable::{Plain, Readable};

// The pad option, of one byte (RFC 2132, section 3.1).
const PAD_OPTION: u8 = 0;

/// The end option, of one byte (RFC 2132, section 3.2).
pub const END_OPTION: u8 = 255;

/// What a walk over options or parts of an option finds next.
#[derive(Clone, Copy)]
pub enum Step {
    /// A part: its code, the place of that code, and the length of its value.
    Found(u8, usize, usize),
    End,
    /// The part whose code stands at this place passes the end.
    Cut(usize),
}

/// The next part from a place on.
pub(crate) fn next_part(bytes: &[u8], from: usize, marked: bool) -> Step
    requires { from ≤ length bytes.now }
    ensures { Finds marked bytes.now from result }
{
    next_in(&mut Plain { bytes }, from, marked)
}

/// The next part from a place on, of bytes that may lie apart.
pub(crate) fn next_in<R: Readable>(bytes: &mut R, from: usize, marked: bool) -> Step
    requires { from ≤ length (R.bytes bytes.old) }
    ensures found { Finds marked (R.bytes bytes.old) from result }
    ensures same { R.bytes bytes.new ≡ R.bytes bytes.old }
{
    let mut at = from;
    while at < bytes.len() {
        if !is_mark(marked, PAD_OPTION, bytes.byte(at)) {
            return part_at(bytes, at, marked);
        }
        at += 1;
    }
    Step::End
}

// Whether the byte is this mark.
fn is_mark(marked: bool, mark: u8, byte: u8) -> bool
    ensures { result ≡ is_mark marked mark byte }
{
    marked && byte == mark
}

// The part whose code stands at a place, where that isn't a pad.
fn part_at<R: Readable>(bytes: &mut R, place: usize, marked: bool) -> Step
    requires within { place < length (R.bytes bytes.old) }
    requires no_pad { is_mark marked 0 (slice_index (R.bytes bytes.old) place) ≡ false }
    ensures found { Finds marked (R.bytes bytes.old) place result }
    ensures same { R.bytes bytes.new ≡ R.bytes bytes.old }
{
    let code = bytes.byte(place);
    if is_mark(marked, END_OPTION, code) {
        return Step::End;
    }
    let behind = bytes.len() - place - 1;
    if behind == 0 {
        return Step::Cut(place);
    }
    let len = usize::from(bytes.byte(place + 1));
    if behind - 1 < len {
        return Step::Cut(place);
    }
    Step::Found(code, place, len)
}
