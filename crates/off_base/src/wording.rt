ghost use Rattle.std.specs.Prelude.{◌≡◌, ◌≤◌, length, MatchResult, IsUtf8};

use arrayvec::ArrayString;
use std::marker::Model;

/// UTF-8 text (RFC 3629) of at most 64 bytes, held in place. Contracts see its bytes.
#[derive(Drop)]
pub struct Short {
    held: ArrayString<64>,
}

/// A text that is too long for a `Short`, or isn't UTF-8.
#[derive(Clone, Copy, PartialEq, Eq)]
pub struct NotShort;

impl Model for Short {
    ghost use Rattle.std.specs.Prelude.{List, ℕ};

    ghost Value = { List ℕ };

    ghost view = { λ s. s.held.bytes };
}

impl Short {
    /// The text, where it fits. `NotShort` comes exactly where it is longer than 64 bytes or isn't
    /// UTF-8.
    pub fn read(text: &[u8]) -> Result<Short, NotShort>
        ensures read { MatchResult result
            (λ short. (short ≡ text.now) × (length text.now ≤ 64) × IsUtf8 text.now)
            (λ _. (length text.now ≤ 64) → IsUtf8 text.now → ⊥) }
    {
        let Ok(text) = std::str::from_utf8(text) else {
            return Err(NotShort);
        };
        match ArrayString::from(text) {
            Ok(held) => Ok(Short { held }),
            Err(_) => Err(NotShort),
        }
    }

    /// The text's bytes.
    pub fn as_slice(&self) -> &[u8]
        ensures bytes { result.now ≡ self.now }
        ensures fits { length self.now ≤ 64 }
        ensures utf8 { IsUtf8 self.now }
    {
        self.held.as_str().as_bytes()
    }

    /// The text.
    pub fn as_str(&self) -> &str
        ensures { result.now ≡ self.now }
    {
        self.held.as_str()
    }

    /// The same text again.
    pub fn copy(&self) -> Short
        ensures { result ≡ self.now }
    {
        Short { held: self.held }
    }
}
