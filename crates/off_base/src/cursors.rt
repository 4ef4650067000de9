ghost use Rattle.std.specs.Prelude.{◌≡◌, ◌==◌, ◌<◌, ◌≤◌, true, length, slice_index, IsOk};
ghost use Rattle.off_base.specs.Parts.{parts_in};
ghost use Rattle.off_base.specs.Walk.{all_values, cursor_at, CursorStands, Shows, Holds, Finds};

use crate::joined::len_if;
use crate::parts::{Step, next_in, next_part};
use crate::readable::Readable;
use std::marker::Model;

/// A place among options: that of an option's code, and how many joined bytes lie before its value.
#[derive(Clone, Copy)]
pub struct Cursor {
    at: usize,
    before: usize,
}

// An option at a cursor, and how many of the joined bytes stand in it.
#[derive(Clone, Copy)]
pub(crate) struct Piece {
    cursor: Cursor,
    len: usize,
}

/// A joined value, to be read from the front on: one walk over its bytes is one walk over the
/// options.
///
/// Contracts see its bytes. It lies where the options lie, and takes no memory.
#[derive(Drop)]
pub struct JoinedBytes<'a> {
    options: &'a [u8],
    code: u8,
    first: usize,
    len: usize,
    piece: Piece,
}

impl<'a> Model for JoinedBytes<'a> {
    ghost use Rattle.std.specs.Prelude.{List, ℕ, ◌≡◌, length, true, IsOk};
    ghost use Rattle.off_base.specs.Parts.{parts_in};
    ghost use Rattle.off_base.specs.Walk.{all_values, cursor_at, CursorStands, Shows};

    ghost Value = { List ℕ };

    ghost view = { λ b. all_values b.code b.options.now };

    ghost invariant = { λ b. IsOk (parts_in true b.options.now)
        × (b.len ≡ length (all_values b.code b.options.now))
        × Shows b.options.now b.code b.piece
        × CursorStands b.options.now b.code (cursor_at b.first 0) };
}

impl<'a> JoinedBytes<'a> {
    // The joined values of a code, whose first option stands at a place or behind it, and of which
    // there are so many bytes.
    pub(crate) fn over(options: &'a [u8], code: u8, first: usize, len: usize) -> JoinedBytes<'a>
        requires read { IsOk (parts_in true options.now) }
        requires stands { CursorStands options.now code (cursor_at first 0) }
        requires counted { len ≡ length (all_values code options.now) }
        ensures { result ≡ all_values code options.now }
    {
        JoinedBytes {
            options,
            code,
            first,
            len,
            piece: Piece {
                cursor: Cursor {
                    at: first,
                    before: 0,
                },
                len: 0,
            },
        }
    }

    /// How many bytes there are.
    pub fn len(&self) -> usize
        ensures { result ≡ length self.now }
    {
        self.len
    }

    /// Whether there are no bytes.
    pub fn is_empty(&self) -> bool
        ensures { result ≡ (length self.now == 0) }
    {
        self.len == 0
    }

    /// The next part of the value from a place on.
    pub fn next_part(&mut self, from: usize, marked: bool) -> Step
        requires { from ≤ length self.old }
        ensures found { Finds marked self.old from result }
        ensures same { self.new ≡ self.old }
    {
        next_in(self, from, marked)
    }

    /// The byte at a place. Bytes that are asked for in their order are one walk together.
    pub fn byte_at(&mut self, place: usize) -> u8
        requires { place < length self.old }
        ensures byte { result ≡ slice_index self.old place }
        ensures same { self.new ≡ self.old }
    {
        self.byte(place)
    }
}

impl<'a> Readable for JoinedBytes<'a> {
    ghost bytes = { λ joined. joined };

    fn len(&self) -> usize {
        self.len
    }

    fn byte(&mut self, place: usize) -> u8 {
        let piece = piece_with(self.options, self.code, self.first, self.piece, place);
        self.piece = piece;
        self.options[piece.cursor.at + 2 + (place - piece.cursor.before)]
    }
}

// The option that has a joined byte: the one that was read last, or one that stands behind it, or
// behind the first place.
fn piece_with(options: &[u8], code: u8, first: usize, last: Piece, i: usize) -> Piece
    requires shows { Shows options.now code last }
    requires front { CursorStands options.now code (cursor_at first 0) }
    requires within { i < length (all_values code options.now) }
    ensures { Holds options.now code i result }
{
    if i < last.cursor.before {
        let front = Cursor {
            at: first,
            before: 0,
        };
        return holder(options, code, front, i);
    }
    if i - last.cursor.before < last.len {
        return last;
    }
    holder(options, code, last.cursor, i)
}

// The option that has a joined byte, from a cursor on.
fn holder(options: &[u8], wanted: u8, from: Cursor, i: usize) -> Piece
    requires stands { CursorStands options.now wanted from }
    requires behind { from.before ≤ i }
    requires within { i < length (all_values wanted options.now) }
    ensures { Holds options.now wanted i result }
{
    let mut at = from.at;
    let mut before = from.before;
    'options: loop {
        match next_part(options, at, true) {
            Step::Found(code, place, len) => {
                let here = len_if(code == wanted, len);
                if i - before < here {
                    let cursor = Cursor { at: place, before };
                    return Piece { cursor, len };
                }
                before += here;
                at = place + 2 + len;
            }
            Step::End => unreachable!(),
            Step::Cut(_) => unreachable!(),
        }
    }
}
