//! Bytes that a tail holds in place.
ghost use Rattle.std.specs.Prelude.{◌≡◌, ◌+◌, ◌≤◌, ◌++◌, [], ◌∷◌, length};
ghost use Rattle.arrayvec.specs.ArrayVec.{array_vec_len};
ghost use Rattle.off_base.specs.Tree.{leaf, spelling};

use arrayvec::ArrayVec;

// The most bytes of a tail: settings 19 and 20 of 6 bytes each, settings 6 and 7 of 18 each, the
// end marker and 3 pads.
pub(crate) const MOST: usize = 52;

pub(crate) type Held = ArrayVec<u8, MOST>;

// Appends bytes.
pub(crate) fn push_all(piece: &[u8], held: &mut Held)
    requires { array_vec_len held.old + length piece.now ≤ 52 }
    ensures items { held.new.items ≡ held.old.items ++ piece.now }
    ensures len { array_vec_len held.new ≡ array_vec_len held.old + length piece.now }
{
    let _fits = held.try_extend_from_slice(piece);
}

// Appends a setting.
pub(crate) fn push_setting(code: u8, value: &[u8], held: &mut Held)
    requires { array_vec_len held.old + 2 + length value.now ≤ 52 }
    ensures items { held.new.items ≡ held.old.items ++ spelling (leaf code value.now ∷ []) }
    ensures len { array_vec_len held.new ≡ array_vec_len held.old + 2 + length value.now }
{
    push_all(&[code, value.len() as u8], held);
    push_all(value, held);
}
