ghost use Rattle.std.specs.Prelude.{◌≡◌, ◌+◌, ◌<◌, ◌≤◌, ◌++◌, ◌-◌, ◌∷◌, [], min, length, OnOk};
ghost use Rattle.std.specs.Prelude.{OnErr, MatchOption};
ghost use Rattle.off_base.specs.Number.{greatest_u64};
ghost use Rattle.off_base.specs.Tree.{spelling, spelled, AllFit, Fits};
ghost use Rattle.off_base.specs.Setting.{tree_of};
ghost use Rattle.off_tlv.specs.Front.{BeginsWith};

use off_base::{Bytes, NoMemory, Setting, Settings};

/// The number of bytes that the settings are spelled with, or the greatest `usize` where that is
/// less.
///
/// `None` comes exactly where some value, or the spelling of some group's parts, has more than 255
/// bytes. It takes no memory.
#[cycle(spelled_len)]
pub fn spelled_len(settings: &Settings) -> Option<usize>
    ensures { MatchOption result (¬ AllFit settings.now)
        (λ n. AllFit settings.now × (n ≡ min (length (spelling settings.now)) greatest_u64)) }
{
    let mut sum: usize = 0;
    for place in 0..settings.len() {
        let Some(length) = value_len(settings.get(place)) else {
            return None;
        };
        sum = sum.saturating_add(2 + length);
    }
    Some(sum)
}

// The length of a setting's value, where a byte can say it.
#[cycle(spelled_len)]
fn value_len(setting: &Setting) -> Option<usize>
    ensures { MatchOption result (¬ Fits (tree_of setting.now))
        (λ n. Fits (tree_of setting.now) × (n ≤ 255)
        × (length (spelled (tree_of setting.now)) ≡ 2 + n)) }
{
    match setting {
        Setting::Leaf { value, .. } => in_a_byte(value.len()),
        Setting::Group { parts, .. } => match spelled_len(parts) {
            Some(length) => in_a_byte(length),
            None => None,
        },
    }
}

// The length, where a byte can say it.
fn in_a_byte(length: usize) -> Option<usize>
    ensures { MatchOption result (255 < length) (λ n. (n ≡ length) × (n ≤ 255)) }
{
    if length <= 255 { Some(length) } else { None }
}

/// Appends the spelling of the settings (CM-SP-MULPIv3.1, annex C). After `NoMemory` the bytes are
/// as before.
pub fn write_settings(settings: &Settings, out: &mut Bytes) -> Result<(), NoMemory>
    requires { AllFit settings.now }
    ensures ok { OnOk result (out.new ≡ out.old ++ spelling settings.now) }
    ensures err { OnErr result (out.new ≡ out.old) }
{
    let before = out.len();
    match push_settings(settings, out) {
        Ok(()) => Ok(()),
        Err(NoMemory) => {
            out.truncate(before);
            Err(NoMemory)
        }
    }
}

// Appends the spelling of the settings, or a part of it where memory runs out.
#[cycle(write)]
fn push_settings(settings: &Settings, out: &mut Bytes) -> Result<(), NoMemory>
    requires { AllFit settings.now }
    ensures ok { OnOk result (out.new ≡ out.old ++ spelling settings.now) }
    ensures err { OnErr result (BeginsWith out.old out.new) }
{
    for place in 0..settings.len() {
        push_setting(settings.get(place), out)?;
    }
    Ok(())
}

#[cycle(write)]
fn push_setting(setting: &Setting, out: &mut Bytes) -> Result<(), NoMemory>
    requires { Fits (tree_of setting.now) }
    ensures ok { OnOk result (out.new ≡ out.old ++ spelled (tree_of setting.now)) }
    ensures err { OnErr result (BeginsWith out.old out.new) }
{
    match setting {
        Setting::Leaf { code, value } => {
            push_head(*code, value.len(), out)?;
            out.push_all(value.as_slice())
        }
        Setting::Group { code, parts } => {
            let Some(length) = spelled_len(parts) else {
                unreachable!()
            };
            push_head(*code, length, out)?;
            push_settings(parts, out)
        }
    }
}

// Appends a code and a length.
fn push_head(code: u8, length: usize, out: &mut Bytes) -> Result<(), NoMemory>
    requires { length ≤ 255 }
    ensures ok { OnOk result (out.new ≡ out.old ++ code ∷ length ∷ []) }
    ensures err { OnErr result (BeginsWith out.old out.new) }
{
    out.push_all(&[code, length as u8])
}
