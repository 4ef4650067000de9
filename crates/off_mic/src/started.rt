//! Both values, begun over the settings in front of a file, which so serve any number of files.
ghost use Rattle.std.specs.Prelude.{◌≡◌, ◌++◌, List};
ghost use Rattle.off_base.specs.Tree.{Tree, spelling};
ghost use Rattle.off_mic.specs.Mic.{cm_mic_of, cmts_mic_of};
ghost use Rattle.off_mic.specs.Started.{Begun, NoneFirst};

use crate::digests::{DIGEST_ORDER, cmts_mic, take_codes};
use crate::feeding::{Wanted, copied, feed};
use crate::keyed::Hmac;
use md5::{Digest, Md5};
use off_base::Secret;

// So many codes of the termination system's order stand before setting 6.
const FIRST: usize = 6;

/// What both values take of settings that stand in front of others, the termination system's under
/// a secret.
#[derive(Drop)]
pub struct Started {
    secret: Secret,
    cm: Md5,
    cmts: Hmac,
}

impl Started {
    /// Both values begun over the settings that bytes spell. It takes no memory.
    pub fn over(secret: &Secret, front: &[u8]) -> Started
        ensures { Begun result front.now }
    {
        let mut cm = Md5::new();
        feed(&mut cm, Wanted::ButMics, front);
        let mut cmts = Hmac::new(secret.as_slice());
        take_codes(&DIGEST_ORDER[..FIRST], front, &[], &mut cmts);
        Started {
            secret: secret.copy(),
            cm,
            cmts,
        }
    }

    /// The modem's value over the settings in front and these behind them (CM-SP-MULPIv3.1, annex
    /// C.1.1.6). It reads these alone.
    pub fn cm_mic(&self, behind: &[u8]) -> [u8; 16]
        ensures { (front back : List Tree) → Begun self.now (spelling front)
            → behind.now ≡ spelling back → result ≡ cm_mic_of (front ++ back) }
    {
        let mut hasher = copied(&self.cm);
        feed(&mut hasher, Wanted::ButMics, behind);
        hasher.finalize()
    }

    /// The termination system's under a secret, over the settings in front, which are given once
    /// more, and these behind them, which have none of the first codes (CM-SP-MULPIv3.1, annex
    /// D.1.3). Under the secret by which it has begun it takes in no setting of the first codes.
    pub fn cmts_mic(&self, secret: &[u8], first: &[u8], behind: &[u8]) -> [u8; 16]
        ensures { (front back : List Tree) → Begun self.now first.now
            → first.now ≡ spelling front → behind.now ≡ spelling back → NoneFirst back
            → result ≡ cmts_mic_of secret.now (front ++ back) }
    {
        if self.secret.as_slice() == secret {
            return self.rest_of_cmts(first, behind);
        }
        cmts_mic(secret, first, behind)
    }

    // The termination system's under the secret by which it has begun.
    fn rest_of_cmts(&self, first: &[u8], behind: &[u8]) -> [u8; 16]
        ensures { (front back : List Tree) → Begun self.now first.now
            → first.now ≡ spelling front → behind.now ≡ spelling back → NoneFirst back
            → result ≡ cmts_mic_of self.now.secret (front ++ back) }
    {
        let mut hmac = self.cmts.copy();
        take_codes(&DIGEST_ORDER[FIRST..], first, behind, &mut hmac);
        hmac.finish()
    }
}
