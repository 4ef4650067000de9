ghost use Rattle.std.specs.Prelude.{◌≡◌, ◌∷◌, ◌++◌, ◌≤◌, [], List, Err, length, if◌then◌else◌};
ghost use Rattle.std.specs.Prelude.{IfOk, OnOk, MatchResult};
ghost use Rattle.off_base.specs.Tree.{Tree, spelling};
ghost use Rattle.off_tlv.specs.Grammar.{FileOf};
ghost use Rattle.off_tlv.specs.Fault.{IsFirstFault};
ghost use Rattle.off_tlv.specs.Told.{WhyNotRead};
ghost use Rattle.off_tlv.specs.declared.faults.FileErr.TheVariants.{Read};
ghost use Rattle.off_tlv.specs.declared.faults.ReadFault.{ReadFault};
ghost use Rattle.off_mic.specs.declared.feeding.Wanted.TheVariants.{ButMics as but_mics};
ghost use Rattle.off_mic.specs.Mic.{without_mics, Sealed};
ghost use Rattle.off_mic.specs.Feed.{is_fed, wanted_text};
ghost use Rattle.off_mic.specs.Seal.{SealsFile, GivesSealed, EndsPadded};

use crate::digests::{cm_mic, cmts_mic};
use crate::feeding::{CM_MIC, CMTS_MIC, Wanted};
use off_base::{Bytes, NoMemory};
use off_tlv::{END_MARKER, FileErr, Tlvs, extent};
use std::alloc::Global;

/// The sealed file of a file's settings, without its settings 6 and 7, under a secret
/// (CM-SP-MULPIv3.1, annex D.1.3): both values behind them, the end marker, and zeros to a multiple
/// of four bytes.
pub fn seal(alloc: Global, file: &[u8], secret: &[u8]) -> Result<Bytes, FileErr>
    ensures found { MatchResult result (SealsFile file.now secret.now) (WhyNotRead file.now) }
    ensures only { (trees : List Tree) → FileOf file.now trees
        → GivesSealed trees secret.now result }
    ensures first { (fault : ReadFault) → IsFirstFault file.now fault → result ≡ Err (Read fault) }
{
    found_seal(alloc, file, secret)
}

fn found_seal(alloc: Global, file: &[u8], secret: &[u8]) -> Result<Bytes, FileErr>
    ensures { MatchResult result (SealsFile file.now secret.now) (WhyNotRead file.now) }
{
    let end = match extent(file) {
        Ok(end) => end,
        Err(fault) => return Err(FileErr::Read(fault)),
    };
    match sealed(alloc, &file[..end], secret) {
        Ok(bytes) => Ok(bytes),
        Err(NoMemory) => Err(FileErr::Memory),
    }
}

// The sealed file of settings without those of the two values.
fn sealed(alloc: Global, settings: &[u8], secret: &[u8]) -> Result<Bytes, NoMemory>
    ensures { IfOk result
        (λ bytes. (trees : List Tree) → settings.now ≡ spelling trees
        → Sealed bytes (without_mics trees) secret.now) }
{
    let mut out = Bytes::new(alloc);
    push_without_mics(settings, &mut out)?;
    let cm = cm_mic(out.as_slice(), &[]);
    push_mic(CM_MIC, &cm, &mut out)?;
    let cmts = cmts_mic(secret, out.as_slice(), &[]);
    push_mic(CMTS_MIC, &cmts, &mut out)?;
    push_end(&mut out)?;
    Ok(out)
}

// Appends the settings but those of the two values.
fn push_without_mics(settings: &[u8], out: &mut Bytes) -> Result<(), NoMemory>
    ensures { OnOk result
        ((trees : List Tree) → settings.now ≡ spelling trees
        → out.new ≡ out.old ++ wanted_text but_mics trees) }
{
    let mut walk = Tlvs::over(settings);
    'settings: loop {
        let found = match walk.next() {
            Ok(found) => found,
            Err(_place) => return Ok(()),
        };
        let Some(tlv) = found else {
            return Ok(());
        };
        push_wanted(tlv.code, tlv.value, out)?;
    }
}

// Appends a setting that isn't one of the two values.
fn push_wanted(code: u8, value: &[u8], out: &mut Bytes) -> Result<(), NoMemory>
    requires { length value.now ≤ 255 }
    ensures { OnOk result
        (out.new ≡ out.old ++
        (if is_fed but_mics code then code ∷ length value.now ∷ value.now else [])) }
{
    if Wanted::ButMics.has(code) {
        out.push_all(&[code, value.len() as u8])?;
        out.push_all(value)?;
    }
    Ok(())
}

// Appends the setting of one of the values.
fn push_mic(code: u8, mic: &[u8; 16], out: &mut Bytes) -> Result<(), NoMemory>
    ensures { OnOk result (out.new ≡ out.old ++ code ∷ 16 ∷ mic.now) }
{
    out.push_all(&[code, 16])?;
    out.push_all(mic.as_slice())
}

// Appends the end marker, and zeros to a multiple of four bytes.
fn push_end(out: &mut Bytes) -> Result<(), NoMemory>
    ensures { OnOk result (EndsPadded out.old out.new) }
{
    out.push_all(&[END_MARKER])?;
    let pads = (4 - out.len() % 4) % 4;
    out.push_all(&[0; 3][..pads])
}
