ghost use Rattle.std.specs.Prelude.{◌≡◌, ◌<◌, ◌++◌, [], true, false, slice_set, ℕ, List};
ghost use Rattle.off_base.specs.Tree.{Tree, spelling};
ghost use Rattle.off_mic.specs.Mic.{cm_mic_of, cmts_mic_of, text_of_codes};
ghost use Rattle.off_mic.specs.Hmac.{HoldsKeyed};
ghost use Rattle.off_mic.specs.Feed.{wanted_text, MarksCodes};
ghost use Rattle.off_mic.specs.declared.feeding.Wanted.TheVariants.{OfCode};

use crate::feeding::{Wanted, feed};
use crate::keyed::Hmac;
use md5::{Digest, Md5};
use off_tlv::Tlvs;

// The codes that the termination system's value covers, in the order in which their settings are
// taken.
pub(crate) const DIGEST_ORDER: [u8; 21] = [
    1, 2, 3, 4, 17, 43, 6, 18, 19, 20, 22, 23, 24, 25, 28, 29, 26, 35, 36, 37, 40,
];

/// The modem's value over settings that are spelled in two pieces (CM-SP-MULPIv3.1, annex C.1.1.6):
/// the MD5 digest of all of them without settings 6 and 7. Of pieces that spell no settings nothing
/// is said. It takes no memory.
pub fn cm_mic(first: &[u8], rest: &[u8]) -> [u8; 16]
    ensures { (front back : List Tree) → first.now ≡ spelling front → rest.now ≡ spelling back
        → result ≡ cm_mic_of (front ++ back) }
{
    let mut hasher = Md5::new();
    feed(&mut hasher, Wanted::ButMics, first);
    feed(&mut hasher, Wanted::ButMics, rest);
    hasher.finalize()
}

/// The termination system's value under its secret, over settings that are spelled in two pieces
/// (CM-SP-MULPIv3.1, annex D.1.3): the keyed digest of those that it covers, code by code. Of
/// pieces that spell no settings nothing is said. It takes no memory.
pub fn cmts_mic(secret: &[u8], first: &[u8], rest: &[u8]) -> [u8; 16]
    ensures { (front back : List Tree) → first.now ≡ spelling front → rest.now ≡ spelling back
        → result ≡ cmts_mic_of secret.now (front ++ back) }
{
    let mut hmac = Hmac::new(secret);
    take_codes(&DIGEST_ORDER, first, rest, &mut hmac);
    hmac.finish()
}

// Takes in the settings of these codes, code by code, that are spelled in two pieces. Which codes
// the first piece has is found by one walk: most have no setting there.
pub(crate) fn take_codes(codes: &[u8], first: &[u8], rest: &[u8], hmac: &mut Hmac)
    ensures { (key message : List ℕ) (front back : List Tree) → first.now ≡ spelling front
        → rest.now ≡ spelling back → HoldsKeyed hmac.old key message
        → HoldsKeyed hmac.new key (message ++ text_of_codes codes.now (front ++ back)) }
{
    let marks = codes_in(first);
    for code in codes {
        take_code(*code, marks[usize::from(*code)], first, hmac);
        hmac.take_settings(Wanted::OfCode(*code), rest);
    }
}

// Takes in the settings of a code, where it has some.
fn take_code(code: u8, is_there: bool, bytes: &[u8], hmac: &mut Hmac)
    ensures { (key message : List ℕ) (trees : List Tree) → bytes.now ≡ spelling trees
        → (is_there ≡ false → wanted_text (OfCode code) trees ≡ [])
        → HoldsKeyed hmac.old key message
        → HoldsKeyed hmac.new key (message ++ wanted_text (OfCode code) trees) }
{
    if is_there {
        hmac.take_settings(Wanted::OfCode(code), bytes);
    }
}

// Marks the codes of settings.
fn codes_in(bytes: &[u8]) -> [bool; 256]
    ensures { (trees : List Tree) → bytes.now ≡ spelling trees → MarksCodes result trees }
{
    let mut marks = [false; 256];
    let mut walk = Tlvs::over(bytes);
    'settings: loop {
        let found = match walk.next() {
            Ok(found) => found,
            Err(_place) => return marks,
        };
        let Some(tlv) = found else {
            return marks;
        };
        mark(&mut marks, tlv.code);
    }
}

fn mark(marks: &mut [bool; 256], code: u8)
    ensures marked { marks.new ≡ slice_set marks.old code true }
    ensures ranged { code < 256 }
{
    marks[usize::from(code)] = true;
}
