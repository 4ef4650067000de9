use off_base::{Bytes, NoMemory, Settings};
use off_mic::{Hmac, MicFault, Verdict, cm_mic, cmts_mic, seal, verify};
use off_tlv::{FileErr, ReadFault, Tlvs, extent, read_settings, spelled_len, write_settings};
use script_words::{Line, Page, Unread, read_settings_of, show_settings};
use std::alloc::Global;

fn placed(page: &mut Page, word: &str, place: usize) -> Result<(), NoMemory> {
    page.text(word)?;
    page.number(place as u64)
}

fn show_fault(page: &mut Page, fault: ReadFault) -> Result<(), NoMemory> {
    match fault {
        ReadFault::Cut(place) => placed(page, "cut ", place),
        ReadFault::NoEnd => page.text("no-end"),
        ReadFault::AfterEnd(place) => placed(page, "after-end ", place),
        ReadFault::EarlyPad(place) => placed(page, "early-pad ", place),
    }
}

fn show_err(page: &mut Page, err: FileErr) -> Result<(), Unread> {
    match err {
        FileErr::Read(fault) => Ok(show_fault(page, fault)?),
        FileErr::Memory => Err(Unread::Memory),
    }
}

/// `extent 030101ff`: how many bytes the settings have, or the file's first fault.
pub fn extent_of(alloc: Global, page: &mut Page, line: Line<'_>) -> Result<(), Unread> {
    let mut line = line;
    let file = line.bytes(alloc)?;
    match extent(file.as_slice()) {
        Ok(end) => Ok(placed(page, "end ", end)?),
        Err(fault) => Ok(show_fault(page, fault)?),
    }
}

/// `read 030101ff`: the settings, or the file's first fault.
pub fn read(alloc: Global, page: &mut Page, line: Line<'_>) -> Result<(), Unread> {
    let mut line = line;
    let file = line.bytes(alloc)?;
    match read_settings(alloc, file.as_slice()) {
        Ok(settings) => show_read(page, &settings),
        Err(err) => show_err(page, err),
    }
}

// A copy of the settings is shown.
fn show_read(page: &mut Page, settings: &Settings) -> Result<(), Unread> {
    let copy = settings.copy()?;
    placed(page, "settings ", copy.len())?;
    Ok(show_settings(page, &copy)?)
}

/// `spell 24{ 1=0001 } 3=01`: how many bytes they have, and the bytes; `none` where a value has
/// more bytes than its length can say.
pub fn spell(alloc: Global, page: &mut Page, line: Line<'_>) -> Result<(), Unread> {
    let mut line = line;
    let settings = read_settings_of(alloc, &mut line)?;
    let Some(length) = spelled_len(&settings) else {
        return Ok(page.text("none")?);
    };
    let mut out = Bytes::new(alloc);
    write_settings(&settings, &mut out)?;
    placed(page, "", length)?;
    page.text(" ")?;
    Ok(page.hex(out.as_slice())?)
}

/// `walk 0301010901`: the settings of one level as `code value@place`, and the place of a setting
/// that is cut.
pub fn walk(alloc: Global, page: &mut Page, line: Line<'_>) -> Result<(), Unread> {
    let mut line = line;
    let bytes = line.bytes(alloc)?;
    let mut walk = Tlvs::over(bytes.as_slice());
    for _ in 0..bytes.len() {
        match walk.next() {
            Ok(Some(tlv)) => {
                placed(page, "", usize::from(tlv.code))?;
                page.text(" ")?;
                page.hex(tlv.value)?;
                placed(page, "@", tlv.place)?;
                page.text(", ")?;
            }
            Ok(None) => return Ok(page.text("end")?),
            Err(place) => return Ok(placed(page, "cut ", place)?),
        }
    }
    Ok(page.text("end")?)
}

// Reads a word of hexadecimal digits.
fn word(alloc: Global, line: &mut Line<'_>) -> Result<Bytes, Unread> {
    let mut bytes = Bytes::new(alloc);
    line.hex(alloc, &mut bytes)?;
    Ok(bytes)
}

/// `hmac 0b0b "Hi There"`: the keyed digest of the message, which is taken in two pieces (RFC
/// 2104).
pub fn hmac(alloc: Global, page: &mut Page, line: Line<'_>) -> Result<(), Unread> {
    let mut line = line;
    let secret = word(alloc, &mut line)?;
    let message = line.bytes(alloc)?;
    let message = message.as_slice();
    let half = message.len() / 2;
    let mut hmac = Hmac::new(secret.as_slice());
    hmac.update(message.get(..half).unwrap_or(message));
    hmac.update(message.get(half..).unwrap_or(b""));
    Ok(page.hex(&hmac.finish())?)
}

/// `mics 736563726574 030101 120101`: both values over settings that are spelled in two pieces.
pub fn mics(alloc: Global, page: &mut Page, line: Line<'_>) -> Result<(), Unread> {
    let mut line = line;
    let secret = word(alloc, &mut line)?;
    let first = word(alloc, &mut line)?;
    let rest = word(alloc, &mut line)?;
    page.hex(&cm_mic(first.as_slice(), rest.as_slice()))?;
    page.text(" ")?;
    Ok(page.hex(&cmts_mic(secret.as_slice(), first.as_slice(), rest.as_slice()))?)
}

/// `seal 736563726574 030101ff`
pub fn seal_of(alloc: Global, page: &mut Page, line: Line<'_>) -> Result<(), Unread> {
    let mut line = line;
    let secret = word(alloc, &mut line)?;
    let file = line.bytes(alloc)?;
    match seal(alloc, file.as_slice(), secret.as_slice()) {
        Ok(sealed) => Ok(page.hex(sealed.as_slice())?),
        Err(err) => show_err(page, err),
    }
}

/// `verify 736563726574 030101ff`
pub fn verify_of(alloc: Global, page: &mut Page, line: Line<'_>) -> Result<(), Unread> {
    let mut line = line;
    let secret = word(alloc, &mut line)?;
    let file = line.bytes(alloc)?;
    match verify(file.as_slice(), secret.as_slice()) {
        Ok(verdict) => Ok(show_verdict(page, verdict)?),
        Err(fault) => Ok(show_mic_fault(page, fault)?),
    }
}

fn show_verdict(page: &mut Page, verdict: Verdict) -> Result<(), NoMemory> {
    page.text(if verdict.cm { "cm good " } else { "cm bad " })?;
    page.text(if verdict.cmts {
        "cmts good"
    } else {
        "cmts bad"
    })
}

fn show_mic_fault(page: &mut Page, fault: MicFault) -> Result<(), NoMemory> {
    match fault {
        MicFault::Read(fault) => show_fault(page, fault),
        MicFault::NoMic(code) => placed(page, "no-mic ", usize::from(code)),
        MicFault::TwiceMic(code) => placed(page, "twice-mic ", usize::from(code)),
        MicFault::MicLength(code) => placed(page, "mic-length ", usize::from(code)),
    }
}
