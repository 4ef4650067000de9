ghost use Rattle.std.specs.Prelude.{◌≡◌, []};
ghost use Rattle.off_mic.specs.Hmac.{hmac};

use crate::feeding::copied;
use crate::keyed::{INNER, OUTER, key_block, with_mask};
use md5::{Digest, Md5};
use off_base::Secret;
use std::marker::Model;

/// A secret whose two blocks are taken in already, so that it serves any number of messages (RFC
/// 2104, section 4). It takes no memory.
///
/// Contracts see the secret.
#[derive(Drop)]
pub struct HmacKey {
    secret: Secret,
    inner: Md5,
    outer: Md5,
}

impl Model for HmacKey {
    ghost use Rattle.std.specs.Prelude.{List, ℕ};
    ghost use Rattle.md5.specs.Md5.{Holds};
    ghost use Rattle.off_mic.specs.Hmac.{inner_pad, outer_pad};

    ghost Value = { List ℕ };

    ghost view = { λ k. k.secret };

    ghost invariant = { λ k. Holds k.inner (inner_pad k.secret)
        × Holds k.outer (outer_pad k.secret) };
}

impl HmacKey {
    /// The empty secret.
    pub fn new() -> HmacKey
        ensures { result ≡ [] }
    {
        let Some(none) = Secret::read(&[]) else {
            unreachable!()
        };
        HmacKey::of(&none)
    }

    /// This secret.
    pub fn of(secret: &Secret) -> HmacKey
        ensures { result ≡ secret.now }
    {
        let key = key_block(secret.as_slice());
        let mut inner = Md5::new();
        inner.update(with_mask(key, INNER));
        let mut outer = Md5::new();
        outer.update(with_mask(key, OUTER));
        HmacKey {
            secret: secret.copy(),
            inner,
            outer,
        }
    }

    /// Becomes this secret, whose blocks are taken in where it is another one than before.
    pub fn turn_to(&mut self, secret: &Secret)
        ensures { self.new ≡ secret.now }
    {
        if self.secret.as_slice() == secret.as_slice() {
            return;
        }
        *self = HmacKey::of(secret);
    }

    /// The code of a message.
    pub fn code(&self, message: &[u8]) -> [u8; 16]
        ensures { result ≡ hmac self.now message.now }
    {
        let mut inner = copied(&self.inner);
        inner.update(message);
        let mut outer = copied(&self.outer);
        outer.update(inner.finalize());
        outer.finalize()
    }
}
