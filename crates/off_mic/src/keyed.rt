ghost use Rattle.std.specs.Prelude.{◌≡◌, ℕ, ◌-◌, ◌≤◌, List, [], ◌++◌, length, replicate};
ghost use Rattle.off_base.specs.Tree.{Tree, spelling};
ghost use Rattle.off_mic.specs.Feed.{wanted_text};
ghost use Rattle.off_mic.specs.Hmac.{hmac, padded_key, masked, HoldsKeyed};

use crate::feeding::{Wanted, copied, feed};
use md5::{Digest, Md5};

/// The bytes of a block of MD5.
const BLOCK: usize = 64;

/// The constants that the key is taken with (RFC 2104, section 2).
pub(crate) const INNER: u8 = 0x36;

pub(crate) const OUTER: u8 = 0x5c;

/// HMAC-MD5 of a message that comes in pieces, for a secret of any length (RFC 2104). It takes no
/// memory.
#[derive(Drop)]
pub struct Hmac {
    inner: Md5,
    outer: [u8; BLOCK],
}

impl Hmac {
    /// The code of no bytes yet, under a secret.
    pub fn new(secret: &[u8]) -> Hmac
        ensures { HoldsKeyed result secret.now [] }
    {
        let key = key_block(secret);
        let mut inner = Md5::new();
        inner.update(with_mask(key, INNER));
        Hmac {
            inner,
            outer: with_mask(key, OUTER),
        }
    }

    /// Takes in the next piece of the message.
    pub fn update(&mut self, piece: &[u8])
        ensures { (key message : List ℕ) → HoldsKeyed self.old key message
            → HoldsKeyed self.new key (message ++ piece.now) }
    {
        self.inner.update(piece);
    }

    // Takes in the wanted settings of bytes that are spelled by settings.
    pub(crate) fn take_settings(&mut self, wanted: Wanted, bytes: &[u8])
        ensures { (key message : List ℕ) (trees : List Tree) → bytes.now ≡ spelling trees
            → HoldsKeyed self.old key message
            → HoldsKeyed self.new key (message ++ wanted_text wanted trees) }
    {
        feed(&mut self.inner, wanted, bytes);
    }

    /// The same state again.
    pub(crate) fn copy(&self) -> Hmac
        ensures { result ≡ self.now }
    {
        Hmac {
            inner: copied(&self.inner),
            outer: self.outer,
        }
    }

    /// The code of the message.
    pub fn finish(self) -> [u8; 16]
        ensures { (key message : List ℕ) → HoldsKeyed self key message → result ≡ hmac key message }
    {
        let mut outer = Md5::new();
        outer.update(self.outer);
        outer.update(self.inner.finalize());
        outer.finalize()
    }
}

// The secret as a block: digested where it is longer than one, and filled with zeros.
pub(crate) fn key_block(secret: &[u8]) -> [u8; BLOCK]
    ensures { result ≡ padded_key secret.now }
{
    if secret.len() > BLOCK {
        let digest = Md5::digest(secret);
        filled(&digest)
    } else {
        filled(secret)
    }
}

fn filled(key: &[u8]) -> [u8; BLOCK]
    requires { length key.now ≤ 64 }
    ensures { result ≡ key.now ++ replicate (64 - length key.now) 0 }
{
    let mut block = [0; BLOCK];
    for (at, byte) in key.iter().enumerate() {
        block[at] = *byte;
    }
    block
}

pub(crate) fn with_mask(mut block: [u8; BLOCK], mask: u8) -> [u8; BLOCK]
    ensures { result ≡ masked mask block }
{
    for byte in block.iter_mut() {
        *byte ^= mask;
    }
    block
}
