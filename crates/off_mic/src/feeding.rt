ghost use Rattle.std.specs.Prelude.{◌≡◌, ◌≤◌, ◌==◌, ◌∷◌, ◌++◌, [], ℕ, List, length, if◌then◌else◌};
ghost use Rattle.md5.specs.Md5.{Holds};
ghost use Rattle.off_base.specs.Tree.{Tree, spelling};
ghost use Rattle.off_mic.specs.Feed.{is_fed, wanted_text};

use md5::{Digest, Md5};
use off_tlv::Tlvs;

// The settings that the two values stand in (CM-SP-MULPIv3.1, annexes C.1.1.6 and C.1.1.7).
pub(crate) const CM_MIC: u8 = 6;

pub(crate) const CMTS_MIC: u8 = 7;

// Which settings are wanted.
#[derive(Clone, Copy)]
pub(crate) enum Wanted {
    // All but those of the two values.
    ButMics,
    // Those of a code.
    OfCode(u8),
}

impl Wanted {
    pub(crate) fn has(self, code: u8) -> bool
        ensures { result ≡ is_fed self code }
    {
        match self {
            Wanted::ButMics => !(code == CM_MIC || code == CMTS_MIC),
            Wanted::OfCode(wanted) => code == wanted,
        }
    }
}

// Takes in the wanted settings of bytes that are spelled by settings.
pub(crate) fn feed(hasher: &mut Md5, wanted: Wanted, bytes: &[u8])
    ensures { (message : List ℕ) (trees : List Tree) → bytes.now ≡ spelling trees
        → Holds hasher.old message
        → Holds hasher.new (message ++ wanted_text wanted trees) }
{
    let mut walk = Tlvs::over(bytes);
    'settings: loop {
        let found = match walk.next() {
            Ok(found) => found,
            Err(_place) => return,
        };
        let Some(tlv) = found else {
            return;
        };
        feed_one(hasher, wanted, tlv.code, tlv.value);
    }
}

// The same state again.
pub(crate) fn copied(hasher: &Md5) -> Md5
    ensures { result ≡ hasher.now }
{
    let Ok(copy) = hasher.clone() else {
        unreachable!()
    };
    copy
}

// Takes in a setting that is wanted.
fn feed_one(hasher: &mut Md5, wanted: Wanted, code: u8, value: &[u8])
    requires { length value.now ≤ 255 }
    ensures { (message : List ℕ) → Holds hasher.old message
        → Holds hasher.new
        (message ++
        (if is_fed wanted code then code ∷ length value.now ∷ value.now else [])) }
{
    if wanted.has(code) {
        hasher.update([code, value.len() as u8]);
        hasher.update(value);
    }
}
