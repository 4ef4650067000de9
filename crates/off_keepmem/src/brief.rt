ghost use Rattle.std.specs.Prelude.{◌≡◌, IfSome};

use off_base::Short;
use std::marker::Model;

/// A text of at most `N` bytes, held in place. Contracts see its bytes.
#[derive(Drop)]
pub(crate) struct Brief<const N: usize> {
    bytes: [u8; N],
    len: u8,
}

impl<const N: usize> Model for Brief<N> {
    ghost use Rattle.std.specs.Prelude.{List, ℕ, ◌≤◌, take, IsUtf8};

    ghost Value = { List ℕ };

    ghost view = { λ b. take b.len b.bytes };

    ghost invariant = { λ b. (b.len ≤ N) × (b.len ≤ 64) × ∥ IsUtf8 (take b.len b.bytes) ∥₁ };
}

impl<const N: usize> Brief<N> {
    /// The same text, if it has so few bytes.
    pub(crate) fn of(text: &Short) -> Option<Brief<N>>
        ensures { IfSome result (λ brief. brief ≡ text.now) }
    {
        let text = text.as_slice();
        if text.len() > N {
            return None;
        }
        let mut bytes = [0; N];
        bytes[..text.len()].copy_from_slice(text);
        Some(Brief {
            bytes,
            len: text.len() as u8,
        })
    }

    /// The text.
    pub(crate) fn text(&self) -> Short
        ensures { result ≡ self.now }
    {
        let Ok(text) = Short::read(&self.bytes[..usize::from(self.len)]) else {
            unreachable!()
        };
        text
    }
}
