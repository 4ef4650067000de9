ghost use Rattle.std.specs.Prelude.{◌≡◌, ◌++◌, OnOk};
ghost use Rattle.off_base.specs.Tree.{leaf};
ghost use Rattle.off_base.specs.Setting.{tree_of};
ghost use Rattle.off_clerk_rules.specs.Replies.{settings_text, tree_text};
ghost use Rattle.off_clerk.specs.Commas.{comma_before};

use crate::texts::{push_hex, push_number};
use off_base::{Bytes, NoMemory, Setting, Settings};
use std::alloc::Global;

// Appends the array of the settings.
#[cycle(settings)]
pub(crate) fn push_settings(
    alloc: Global,
    text: &mut Bytes,
    settings: &Settings,
) -> Result<(), NoMemory>
    ensures { OnOk result (text.new ≡ text.old ++ settings_text settings.now) }
{
    text.push_all(b"[")?;
    for place in 0..settings.len() {
        push_comma(text, place)?;
        push_setting(alloc, text, settings.get(place))?;
    }
    text.push_all(b"]")
}

#[cycle(settings)]
fn push_setting(alloc: Global, text: &mut Bytes, setting: &Setting) -> Result<(), NoMemory>
    ensures { OnOk result (text.new ≡ text.old ++ tree_text (tree_of setting.now)) }
{
    match setting {
        Setting::Leaf { code, value } => push_leaf(alloc, text, *code, value),
        Setting::Group { code, parts } => {
            text.push_all(b"{\"code\":")?;
            push_number(text, u64::from(*code))?;
            text.push_all(b",\"parts\":")?;
            push_settings(alloc, text, parts)?;
            text.push_all(b"}")
        }
    }
}

fn push_leaf(alloc: Global, text: &mut Bytes, code: u8, value: &Bytes) -> Result<(), NoMemory>
    ensures { OnOk result (text.new ≡ text.old ++ tree_text (leaf code value.now)) }
{
    text.push_all(b"{\"code\":")?;
    push_number(text, u64::from(code))?;
    text.push_all(b",\"hex\":\"")?;
    push_hex(alloc, text, value.as_slice())?;
    text.push_all(b"\"}")
}

fn push_comma(text: &mut Bytes, place: usize) -> Result<(), NoMemory>
    ensures { OnOk result (text.new ≡ text.old ++ comma_before place) }
{
    if place == 0 {
        Ok(())
    } else {
        text.push_all(b",")
    }
}
