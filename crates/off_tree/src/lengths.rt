ghost use Rattle.std.specs.Prelude.{◌≡◌, ◌-◌, option_map};
ghost use Rattle.off_base.specs.Tree.{trees_length, row_of};
ghost use Rattle.off_base.specs.Setting.{tree_of};
ghost use Rattle.off_tree.specs.Fault.{too_many, long_setting, long_part};
ghost use Rattle.off_tree.specs.Length.{value_length, at_most_u32};

use off_base::{Setting, Settings};

// The most bytes of a value, or of a group's spelled parts.
const VALUE_LIMIT: u32 = 254;

// The number of bytes that settings are spelled with, or the greatest `u32` where that is less.
#[cycle(lengths)]
pub(crate) fn spelled_length(settings: &Settings) -> u32
    ensures { result ≡ at_most_u32 (trees_length settings.now) }
{
    let mut sum: u32 = 0;
    for place in 0..settings.len() {
        sum = sum
            .saturating_add(2)
            .saturating_add(value_length(settings.get(place)));
    }
    sum
}

// The number of bytes of a value, or of a group's spelled parts.
#[cycle(lengths)]
fn value_length(setting: &Setting) -> u32
    ensures { result ≡ at_most_u32 (value_length (tree_of setting.now)) }
{
    match setting {
        Setting::Leaf { value, .. } => as_u32(value.len()),
        Setting::Group { parts, .. } => spelled_length(parts),
    }
}

fn as_u32(number: usize) -> u32
    ensures { result ≡ at_most_u32 number }
{
    match u32::try_from(number) {
        Ok(small) => small,
        Err(_large) => u32::MAX,
    }
}

// The first value or group, each before its parts, that has too many bytes.
#[cycle(long)]
pub(crate) fn long_part(settings: &Settings) -> Option<u32>
    ensures { result ≡ option_map at_most_u32 (long_part (row_of settings.now)) }
{
    for place in 0..settings.len() {
        if let Some(length) = long_setting(settings.get(place)) {
            return Some(length);
        }
    }
    None
}

#[cycle(long)]
fn long_setting(setting: &Setting) -> Option<u32>
    ensures { result ≡ option_map at_most_u32 (long_setting (tree_of setting.now)) }
{
    match too_many(VALUE_LIMIT, value_length(setting)) {
        Some(length) => Some(length),
        None => match setting {
            Setting::Leaf { .. } => None,
            Setting::Group { parts, .. } => long_part(parts),
        },
    }
}

pub(crate) fn too_many(most: u32, length: u32) -> Option<u32>
    ensures { result ≡ too_many most length }
{
    if length > most { Some(length) } else { None }
}
