ghost use Rattle.std.specs.Prelude.{◌≡◌, ◌++◌, IfOk, OnOk};
ghost use Rattle.off_base.specs.Tree.{leaf};
ghost use Rattle.off_base.specs.Setting.{tree_of};
ghost use Rattle.off_file_rules.specs.Profile.{profile_of, active_profile, suspended_profile};
ghost use Rattle.off_file_rules.specs.Profile.{all_raised, access, devices, plain_flow};

use crate::add_ons::AddOns;
use crate::raising::{bytes_of, push_raised};
use off_base::{NoMemory, Setting, Settings};
use off_defs::Subscriber;
use std::alloc::Global;

/// The profile of a modem, by the rows of its subscriber and its class and by the subscriber's
/// add-ons: the settings of its configuration file (CM-SP-MULPIv3.1, annex C) before those of the
/// moment, the address and the secret.
///
/// The references of add-on k are raised, flows' by 256 * (k + 1) and classifiers' by 128 + 16 * k.
/// A suspended subscriber's modem gets a flow of each direction and no access.
pub fn profile_of(
    alloc: Global,
    who: &Subscriber,
    class: &Settings,
    add_ons: &AddOns,
) -> Result<Settings, NoMemory>
    ensures { IfOk result
        (λ profile. profile ≡ profile_of who.now.active who.now.cpes class.now add_ons.now) }
{
    if who.active {
        active_profile(alloc, who.cpes, class, add_ons)
    } else {
        suspended_profile(alloc, who.cpes)
    }
}

fn active_profile(
    alloc: Global,
    cpes: u8,
    class: &Settings,
    add_ons: &AddOns,
) -> Result<Settings, NoMemory>
    ensures { IfOk result (λ profile. profile ≡ active_profile cpes class.now add_ons.now) }
{
    let mut profile = Settings::new(alloc);
    profile.push(access(alloc, 1)?)?;
    push_copies(class, &mut profile)?;
    profile.push(devices(alloc, cpes)?)?;
    push_add_ons(alloc, add_ons, &mut profile)?;
    Ok(profile)
}

fn suspended_profile(alloc: Global, cpes: u8) -> Result<Settings, NoMemory>
    ensures { IfOk result (λ profile. profile ≡ suspended_profile cpes) }
{
    let mut suspended = Settings::new(alloc);
    suspended.push(access(alloc, 0)?)?;
    suspended.push(plain_flow(alloc, 24, 1)?)?;
    suspended.push(plain_flow(alloc, 25, 2)?)?;
    suspended.push(devices(alloc, cpes)?)?;
    Ok(suspended)
}

// Appends copies of settings.
fn push_copies(settings: &Settings, out: &mut Settings) -> Result<(), NoMemory>
    ensures { OnOk result (out.new ≡ out.old ++ settings.now) }
{
    for place in 0..settings.len() {
        out.push(settings.get(place).copy()?)?;
    }
    Ok(())
}

// Appends the settings of all add-ons.
fn push_add_ons(alloc: Global, add_ons: &AddOns, out: &mut Settings) -> Result<(), NoMemory>
    ensures { OnOk result (out.new ≡ out.old ++ all_raised add_ons.now) }
{
    for place in 0..add_ons.len() {
        let (number, settings) = add_ons.get(place);
        push_raised(alloc, number, settings, out)?;
    }
    Ok(())
}

// Setting 3, whether devices behind the modem have access (CM-SP-MULPIv3.1, annex C.1.1.3).
fn access(alloc: Global, allowed: u8) -> Result<Setting, NoMemory>
    ensures { IfOk result (λ made. tree_of made ≡ access allowed) }
{
    leaf(alloc, 3, &[allowed])
}

// Setting 18, how many devices there may be behind the modem (annex C.1.1.9).
fn devices(alloc: Global, cpes: u8) -> Result<Setting, NoMemory>
    ensures { IfOk result (λ made. tree_of made ≡ devices cpes) }
{
    leaf(alloc, 18, &[cpes])
}

// A service flow with nothing but its reference and the bits that provision, admit and activate it
// (annex C.2.2).
fn plain_flow(alloc: Global, code: u8, reference: u8) -> Result<Setting, NoMemory>
    ensures { IfOk result (λ made. tree_of made ≡ plain_flow code reference) }
{
    let mut parts = Settings::new(alloc);
    parts.push(leaf(alloc, 1, &[0, reference])?)?;
    parts.push(leaf(alloc, 6, &[7])?)?;
    Ok(Setting::Group { code, parts })
}

fn leaf(alloc: Global, code: u8, value: &[u8]) -> Result<Setting, NoMemory>
    ensures { IfOk result (λ made. tree_of made ≡ leaf code value.now) }
{
    Ok(Setting::Leaf {
        code,
        value: bytes_of(alloc, value)?,
    })
}
