ghost use Rattle.std.specs.Prelude.{◌≡◌, ◌↔◌, ◌∷◌, [], List, Result, IsTrue, None, Some};
ghost use Rattle.std.specs.Prelude.{MatchOption, MatchResult};
ghost use Rattle.off_base.specs.Tree.{Tree, spelling};
ghost use Rattle.off_tlv.specs.Fault.{Reads};
ghost use Rattle.off_tlv.specs.declared.faults.ReadFault.{ReadFault as FirstFault};
ghost use Rattle.off_mic.specs.Mic.{setting_values};
ghost use Rattle.off_mic.specs.Check.{values_fault, mic_fault, IsVerdict, Verified};
ghost use Rattle.off_mic.specs.Feed.{NextValue};

use crate::digests::{cm_mic, cmts_mic};
use crate::feeding::{CM_MIC, CMTS_MIC};
use off_tlv::{ReadFault, Tlvs, extent};

/// Which of the two values in a file is the one that is computed of it.
#[derive(Clone, Copy, PartialEq, Eq)]
pub struct Verdict {
    /// The modem's, in setting 6.
    pub cm: bool,
    /// The termination system's, in setting 7.
    pub cmts: bool,
}

/// Why a file's values can't be checked. The number is the code of the setting, 6 or 7.
#[derive(Clone, Copy, PartialEq, Eq)]
pub enum MicFault {
    /// The file has this fault.
    Read(ReadFault),
    /// There is no such setting.
    NoMic(u8),
    /// There are several.
    TwiceMic(u8),
    /// Its value hasn't 16 bytes.
    MicLength(u8),
}

/// Whether the two values of a file are right under a secret (CM-SP-MULPIv3.1, annexes C.1.1.6 and
/// C.1.1.7). It takes no memory.
///
/// A fault of the file is told first, then one of setting 6, then one of setting 7.
pub fn verify(file: &[u8], secret: &[u8]) -> Result<Verdict, MicFault>
    ensures found { (reading : Result (List Tree) FirstFault) × Reads file.now reading
        × Verified secret.now reading result }
    ensures only { (reading : Result (List Tree) FirstFault) → Reads file.now reading
        → Verified secret.now reading result }
{
    found_verdict(file, secret)
}

fn found_verdict(file: &[u8], secret: &[u8]) -> Result<Verdict, MicFault>
    ensures { (reading : Result (List Tree) FirstFault) × Reads file.now reading
        × Verified secret.now reading result }
{
    match extent(file) {
        Ok(end) => verdict_of(&file[..end], secret),
        Err(fault) => Err(MicFault::Read(fault)),
    }
}

// The verdict on settings.
fn verdict_of(settings: &[u8], secret: &[u8]) -> Result<Verdict, MicFault>
    ensures { (trees : List Tree) → settings.now ≡ spelling trees
        → MatchResult result (IsVerdict secret.now trees) (λ fault. mic_fault trees ≡ Some fault) }
{
    let cm = match one_value(CM_MIC, settings) {
        Ok(value) => value,
        Err(fault) => return Err(fault),
    };
    let cmts = match one_value(CMTS_MIC, settings) {
        Ok(value) => value,
        Err(fault) => return Err(fault),
    };
    Ok(Verdict {
        cm: is_same(cm, cm_mic(settings, &[])),
        cmts: is_same(cmts, cmts_mic(secret, settings, &[])),
    })
}

fn is_same(value: &[u8], mic: [u8; 16]) -> bool
    ensures { IsTrue result ↔ (value.now ≡ mic) }
{
    value == mic.as_slice()
}

// The value of the one setting of a code, which is to have 16 bytes.
fn one_value(code: u8, settings: &[u8]) -> Result<&[u8], MicFault>
    ensures { (trees : List Tree) → settings.now ≡ spelling trees
        → MatchResult result
        (λ value. (setting_values code trees ≡ value.now ∷ [])
        × (values_fault code (setting_values code trees) ≡ None))
        (λ fault. values_fault code (setting_values code trees) ≡ Some fault) }
{
    let mut walk = Tlvs::over(settings);
    let Some(value) = next_value(code, &mut walk) else {
        return Err(MicFault::NoMic(code));
    };
    if next_value(code, &mut walk).is_some() {
        return Err(MicFault::TwiceMic(code));
    }
    if value.len() == 16 {
        Ok(value)
    } else {
        Err(MicFault::MicLength(code))
    }
}

// The value of the next setting of a code. The walk goes on behind it.
fn next_value<'a>(code: u8, walk: &mut Tlvs<'a>) -> Option<&'a [u8]>
    ensures { (trees : List Tree) → walk.old.rest ≡ spelling trees
        → MatchOption result (setting_values code trees ≡ [])
        (λ value. NextValue code trees value.now walk.new.rest) }
{
    'settings: loop {
        let found = match walk.next() {
            Ok(found) => found,
            Err(_place) => return None,
        };
        let Some(tlv) = found else {
            return None;
        };
        if tlv.code == code {
            return Some(tlv.value);
        }
    }
}
