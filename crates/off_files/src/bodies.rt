ghost use Rattle.std.specs.Prelude.{◌≡◌, ◌==◌, ◌++◌, List, length, IfOk};
ghost use Rattle.off_base.specs.Tree.{Tree, spelling, AllFit};
ghost use Rattle.off_mic.specs.Mic.{cm_mic_of, cmts_mic_of};
ghost use Rattle.off_mic.specs.Started.{Begun, NoneFirst};

use off_base::{Bytes, NoMemory, Secret, Settings};
use off_mic::Started;
use off_tlv::write_settings;
use std::alloc::Global;
use std::marker::Model;
use std::rc::{Rc, RcSlice};

/// The spelling of a profile, which several owners share, and what the two values of its files take
/// in of it, which no file so takes in anew. Contracts see its bytes.
#[derive(Drop)]
pub struct Body {
    spelling: RcSlice<u8>,
    started: Rc<Started>,
}

impl Model for Body {
    ghost use Rattle.std.specs.Prelude.{List, ℕ};
    ghost use Rattle.std.specs.Rc.{rc_slice_items};
    ghost use Rattle.off_mic.specs.Started.{Begun};

    ghost Value = { List ℕ };

    ghost view = { λ b. rc_slice_items b.spelling };

    ghost invariant = { λ b. Begun b.started.value (rc_slice_items b.spelling) };
}

impl Body {
    /// The spelling of a profile (CM-SP-MULPIv3.1, annex C), of which `off_tlv::spelled_len` isn't
    /// `None`. Files under this secret are signed the fastest; any other one serves too.
    pub fn spell(alloc: Global, profile: &Settings, secret: &Secret) -> Result<Body, NoMemory>
        requires { AllFit profile.now }
        ensures { IfOk result (λ body. body ≡ spelling profile.now) }
    {
        let mut bytes = Bytes::new(alloc);
        write_settings(profile, &mut bytes)?;
        let spelling = RcSlice::from_slice(alloc, bytes.as_slice())?;
        let started = started_over(alloc, secret, bytes.as_slice())?;
        Ok(Body { spelling, started })
    }

    /// One more owner of the same bytes, which are not copied.
    pub fn share(&self) -> Result<Body, NoMemory>
        ensures { IfOk result (λ body. body ≡ self.now) }
    {
        let spelling = self.spelling.clone()?;
        let started = self.started.clone()?;
        Ok(Body { spelling, started })
    }

    /// How many bytes there are.
    pub fn len(&self) -> usize
        ensures { result ≡ length self.now }
    {
        self.spelling.len()
    }

    /// Whether there are none.
    pub fn is_empty(&self) -> bool
        ensures { result ≡ (length self.now == 0) }
    {
        self.spelling.len() == 0
    }

    // The bytes.
    pub(crate) fn as_slice(&self) -> &[u8]
        ensures { result.now ≡ self.now }
    {
        self.spelling.as_slice()
    }
    // The modem's value over the body and the settings behind it (CM-SP-MULPIv3.1, annex C.1.1.6).
    pub(crate) fn cm_mic(&self, behind: &[u8]) -> [u8; 16]
        ensures { (front back : List Tree) → self.now ≡ spelling front
            → behind.now ≡ spelling back → result ≡ cm_mic_of (front ++ back) }
    {
        self.started.cm_mic(behind)
    }

    // The termination system's over the body and the settings behind it, which have none of the
    // codes that it takes first (CM-SP-MULPIv3.1, annex D.1.3).
    pub(crate) fn cmts_mic(&self, secret: &[u8], behind: &[u8]) -> [u8; 16]
        ensures { (front back : List Tree) → self.now ≡ spelling front
            → behind.now ≡ spelling back → NoneFirst back
            → result ≡ cmts_mic_of secret.now (front ++ back) }
    {
        self.started
            .cmts_mic(secret, self.spelling.as_slice(), behind)
    }
}

// Both values begun over bytes, for several owners.
fn started_over(alloc: Global, secret: &Secret, bytes: &[u8]) -> Result<Rc<Started>, NoMemory>
    ensures { IfOk result (λ started. Begun started.value bytes.now) }
{
    match Rc::new(alloc, Started::over(secret, bytes)) {
        Ok(started) => Ok(started),
        Err(_refused) => Err(NoMemory),
    }
}
