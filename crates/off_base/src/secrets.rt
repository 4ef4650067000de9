ghost use Rattle.std.specs.Prelude.{◌≡◌, ◌≤◌, ◌<◌, length, MatchOption};

use arrayvec::ArrayVec;
use std::marker::Model;

/// A secret of at most 64 bytes, held in place. Contracts see its bytes.
#[derive(Drop)]
pub struct Secret {
    held: ArrayVec<u8, 64>,
}

impl Model for Secret {
    ghost use Rattle.std.specs.Prelude.{List, ℕ};

    ghost Value = { List ℕ };

    ghost view = { λ s. s.held.items };
}

impl Secret {
    /// The secret of these bytes. `None` comes exactly where there are more than 64.
    pub fn read(bytes: &[u8]) -> Option<Secret>
        ensures { MatchOption result (64 < length bytes.now)
            (λ secret. (secret ≡ bytes.now) × (length bytes.now ≤ 64)) }
    {
        let mut held = ArrayVec::new();
        match held.try_extend_from_slice(bytes) {
            Ok(()) => Some(Secret { held }),
            Err(_full) => None,
        }
    }

    /// The secret's bytes.
    pub fn as_slice(&self) -> &[u8]
        ensures bytes { result.now ≡ self.now }
        ensures fits { length self.now ≤ 64 }
    {
        self.held.as_slice()
    }

    /// The same secret again.
    pub fn copy(&self) -> Secret
        ensures { result ≡ self.now }
    {
        let mut held = ArrayVec::new();
        let _fits = held.try_extend_from_slice(self.held.as_slice());
        Secret { held }
    }
}
