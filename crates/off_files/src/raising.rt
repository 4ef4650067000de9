//! The references of an add-on's flows and classifiers, raised so that they differ from the class's
//! and from another add-on's.
ghost use Rattle.std.specs.Prelude.{◌≡◌, ◌++◌, ◌<◌, ◌^◌, map, IfOk, OnOk};
ghost use Rattle.off_base.specs.Setting.{tree_of};
ghost use Rattle.off_file_rules.specs.Profile.{raised, raised_part, raised_value, raised_pair};
ghost use Rattle.off_file_rules.specs.Profile.{raised_single, has_flow, has_classifier, is_flow};
ghost use Rattle.off_tree.specs.Fault.{is_classifier};
ghost use Rattle.off_file_rules.specs.Profile.{flow_rise, classifier_rise};

use off_base::{Bytes, NoMemory, Setting, Settings};
use std::alloc::Global;

// Appends the settings of the add-on of a number.
pub(crate) fn push_raised(
    alloc: Global,
    number: u8,
    settings: &Settings,
    out: &mut Settings,
) -> Result<(), NoMemory>
    ensures { OnOk result (out.new ≡ out.old ++ map (raised number) settings.now) }
{
    for place in 0..settings.len() {
        out.push(raised(alloc, number, settings.get(place))?)?;
    }
    Ok(())
}

fn raised(alloc: Global, number: u8, setting: &Setting) -> Result<Setting, NoMemory>
    ensures { IfOk result (λ made. tree_of made ≡ raised number (tree_of setting.now)) }
{
    match setting {
        Setting::Leaf { .. } => setting.copy(),
        Setting::Group { code, parts } => Ok(Setting::Group {
            code: *code,
            parts: raised_parts(alloc, number, *code, parts)?,
        }),
    }
}

// The parts of a setting of a code.
fn raised_parts(alloc: Global, number: u8, code: u8, parts: &Settings) -> Result<Settings, NoMemory>
    ensures { IfOk result (λ made. made ≡ map (raised_part number code) parts.now) }
{
    let mut made = Settings::new(alloc);
    for place in 0..parts.len() {
        made.push(raised_part(alloc, number, code, parts.get(place))?)?;
    }
    Ok(made)
}

fn raised_part(alloc: Global, number: u8, code: u8, part: &Setting) -> Result<Setting, NoMemory>
    ensures { IfOk result (λ made. tree_of made ≡ raised_part number code (tree_of part.now)) }
{
    match part {
        Setting::Leaf { code: own, value } => Ok(Setting::Leaf {
            code: *own,
            value: raised_value(alloc, number, code, *own, value.as_slice())?,
        }),
        Setting::Group { .. } => part.copy(),
    }
}

fn raised_value(
    alloc: Global,
    number: u8,
    code: u8,
    part: u8,
    value: &[u8],
) -> Result<Bytes, NoMemory>
    ensures { IfOk result (λ made. made ≡ raised_value number code part value.now) }
{
    if has_flow(code, part) {
        return raised_pair(alloc, flow_rise(number), value);
    }
    if has_classifier(code, part) {
        return raised_single(alloc, classifier_rise(number), value);
    }
    bytes_of(alloc, value)
}

// Whether the part of a setting is the reference of a flow: its own (CM-SP-MULPIv3.1, annex C.2.2),
// or the one that a classifier names (annex C.2.1).
fn has_flow(code: u8, part: u8) -> bool
    ensures { result ≡ has_flow code part }
{
    (is_flow(code) && part == 1) || (is_classifier(code) && part == 3)
}

fn is_flow(code: u8) -> bool
    ensures { result ≡ is_flow code }
{
    code == 24 || code == 25
}

fn is_classifier(code: u8) -> bool
    ensures { result ≡ is_classifier code }
{
    code == 22 || code == 23
}

// Whether it is the reference of a classifier.
fn has_classifier(code: u8, part: u8) -> bool
    ensures { result ≡ has_classifier code part }
{
    is_classifier(code) && part == 1
}

// By how much the references of flows are raised in the add-on of a number.
fn flow_rise(number: u8) -> u32
    ensures { result ≡ flow_rise number }
{
    256 * (u32::from(number) + 1)
}

// By how much those of classifiers are.
fn classifier_rise(number: u8) -> u32
    ensures { result ≡ classifier_rise number }
{
    128 + 16 * u32::from(number)
}

// A reference of two bytes, raised. A value of another length stays.
fn raised_pair(alloc: Global, by: u32, value: &[u8]) -> Result<Bytes, NoMemory>
    requires { by < 2 ^ 24 }
    ensures { IfOk result (λ made. made ≡ raised_pair by value.now) }
{
    match value {
        [high, low] => {
            let reference = 256 * u32::from(*high) + u32::from(*low) + by;
            bytes_of(
                alloc,
                &[(reference / 256 % 256) as u8, (reference % 256) as u8],
            )
        }
        _ => bytes_of(alloc, value),
    }
}

// A reference of one byte, raised. A value of another length stays.
fn raised_single(alloc: Global, by: u32, value: &[u8]) -> Result<Bytes, NoMemory>
    requires { by < 2 ^ 24 }
    ensures { IfOk result (λ made. made ≡ raised_single by value.now) }
{
    match value {
        [reference] => bytes_of(alloc, &[((u32::from(*reference) + by) % 256) as u8]),
        _ => bytes_of(alloc, value),
    }
}

// A copy of bytes.
pub(crate) fn bytes_of(alloc: Global, bytes: &[u8]) -> Result<Bytes, NoMemory>
    ensures { IfOk result (λ made. made ≡ bytes.now) }
{
    let mut made = Bytes::new(alloc);
    made.push_all(bytes)?;
    Ok(made)
}
