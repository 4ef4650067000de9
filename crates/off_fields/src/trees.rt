ghost use Rattle.std.specs.Prelude.{◌≡◌, option_map, option_and_then, IfOk, MatchResult};
ghost use Rattle.off_documents.specs.Documents.{data_of};
ghost use Rattle.off_base.specs.Tree.{leaf};
ghost use Rattle.off_base.specs.Setting.{tree_of};
ghost use Rattle.off_clerk_rules.specs.Fields.{number_in, hex_in, list_in, tree_in, field_in};
ghost use Rattle.off_clerk_rules.specs.Fields.{settings_in};
ghost use Rattle.off_clerk_rules.specs.Commands.{GivesWanted};
ghost use Rattle.off_clerk_rules.specs.declared.faults.CommandErr.TheVariants.{Memory};

use crate::fields::member;
use crate::values::{hex_into, number_of};
use off_base::{Bytes, NoMemory, Setting, Settings};
use off_clerk_rules::{ClerkErr, CommandErr, Name};
use off_defs::SharedSettings;
use off_documents::Part;
use std::alloc::Global;

// How many settings may stand within one another.
const DEPTH: u8 = 3;

// Reads the field of a body that has settings.
pub(crate) fn settings(
    alloc: Global,
    body: &Part<'_, '_>,
    name: Name,
) -> Result<SharedSettings, CommandErr>
    ensures { GivesWanted (field_in name settings_in (data_of body.now)) result }
{
    let value = member(body, name)?;
    match settings_within(alloc, DEPTH, &value) {
        Ok(Some(settings)) => shared(alloc, settings),
        Ok(None) => Err(CommandErr::Fault(ClerkErr::Value(name))),
        Err(NoMemory) => Err(CommandErr::Memory),
    }
}

fn shared(alloc: Global, settings: Settings) -> Result<SharedSettings, CommandErr>
    ensures { MatchResult result (λ shared. shared ≡ settings) (λ err. err ≡ Memory) }
{
    match SharedSettings::new(alloc, settings) {
        Ok(shared) => Ok(shared),
        Err(NoMemory) => Err(CommandErr::Memory),
    }
}

// The settings of an array, or None where some element is none. They have at most so many settings
// within one another.
#[cycle(trees)]
fn settings_within(
    alloc: Global,
    depth: u8,
    value: &Part<'_, '_>,
) -> Result<Option<Settings>, NoMemory>
    ensures { IfOk result (λ read. read ≡ list_in (tree_in depth) (data_of value.now)) }
{
    let Some(mut elements) = value.elements() else {
        return Ok(None);
    };
    let mut settings = Settings::new(alloc);
    while let Some(element) = elements.next() {
        match setting_within(alloc, depth, &element)? {
            Some(setting) => settings.push(setting)?,
            None => return Ok(None),
        }
    }
    Ok(Some(settings))
}

#[cycle(trees)]
fn setting_within(
    alloc: Global,
    depth: u8,
    value: &Part<'_, '_>,
) -> Result<Option<Setting>, NoMemory>
    ensures { IfOk result (λ read. option_map tree_of read ≡ tree_in depth (data_of value.now)) }
{
    if depth == 0 {
        return Ok(None);
    }
    let (code, hex, parts) = value.get_three("code", "hex", "parts");
    let Some(code) = code_of(&code) else {
        return Ok(None);
    };
    match hex {
        Some(hex) => match parts {
            Some(_) => Ok(None),
            None => leaf(alloc, code, &hex),
        },
        None => match parts {
            Some(parts) => match settings_within(alloc, depth - 1, &parts)? {
                Some(parts) => Ok(Some(Setting::Group { code, parts })),
                None => Ok(None),
            },
            None => Ok(None),
        },
    }
}

fn code_of(code: &Option<Part<'_, '_>>) -> Option<u8>
    ensures { result ≡ option_and_then (number_in 0 255) (option_map data_of code.now) }
{
    let Some(code) = code else {
        return None;
    };
    match number_of(code, 0, 255) {
        Some(code) => Some(code as u8),
        None => None,
    }
}

fn leaf(alloc: Global, code: u8, hex: &Part<'_, '_>) -> Result<Option<Setting>, NoMemory>
    ensures { IfOk result (λ read.
        option_map tree_of read ≡ option_map (leaf code) (hex_in 255 (data_of hex.now))) }
{
    let mut room = [0; 255];
    let Some(count) = hex_into(hex, &mut room) else {
        return Ok(None);
    };
    let mut value = Bytes::with_capacity(alloc, count)?;
    value.push_all(&room[..count])?;
    Ok(Some(Setting::Leaf { code, value }))
}
