//! Which devices have several leases. Such rows are all bad, so the least of them is known only
//! once the others are: the devices are gathered ahead.

ghost use Rattle.std.specs.Prelude.{◌≡◌, false, IfErr, IfOk, OnOk};
ghost use Rattle.off_base.specs.declared.macs.Mac.{Mac};
ghost use Rattle.off_opening.specs.Owners.{has_owner, AreOwners, IsNoted, IsAdded};
ghost use Rattle.off_opening.specs.Owners.{HaveSeveral};
ghost use Rattle.off_opening.specs.Marks.{marked_owner};

use crate::marks::{Mark, Tie};
use off_base::{Mac, NoMemory};
use off_defs::Key;
use off_outside::KeepErr;
use std::alloc::Global;
use std::collections::BTreeSet;

/// Devices with their modems, the modem first.
#[derive(Drop)]
pub(crate) struct Owners {
    /// Those that have a lease.
    pub known: BTreeSet<(Mac, Mac)>,
    /// Those that have several.
    pub several: BTreeSet<(Mac, Mac)>,
}

/// The devices that have several leases, by the marks of all rows.
pub(crate) fn several_in(alloc: Global, marks: &[Mark]) -> Result<BTreeSet<(Mac, Mac)>, KeepErr>
    ensures ok { IfOk result (λ several. HaveSeveral marks.now several) }
    ensures err { IfErr result (λ err. err ≡ KeepErr.Memory) }
{
    let owners = owners_in(alloc, marks)?;
    Ok(owners.several)
}

fn owners_in(alloc: Global, marks: &[Mark]) -> Result<Owners, KeepErr>
    ensures ok { IfOk result (λ owners. AreOwners marks.now owners) }
    ensures err { IfErr result (λ err. err ≡ KeepErr.Memory) }
{
    let mut owners = no_owners(alloc);
    for mark in marks {
        note_owner(&mut owners, marked_owner(mark))?;
    }
    Ok(owners)
}

fn no_owners(alloc: Global) -> Owners
    ensures known { (q : Mac × Mac) → has_owner result.known q ≡ false }
    ensures several { (q : Mac × Mac) → has_owner result.several q ≡ false }
{
    Owners {
        known: BTreeSet::new(alloc),
        several: BTreeSet::new(alloc),
    }
}

// Notes one more lease of a device, if it's one.
fn note_owner(owners: &mut Owners, owner: Option<(Mac, Mac)>) -> Result<(), NoMemory>
    ensures { OnOk result (IsNoted owner owners.old owners.new) }
{
    let Some(owner) = owner else {
        return Ok(());
    };
    if has_owner(&owners.known, owner) {
        add_owner(&mut owners.several, owner)
    } else {
        add_owner(&mut owners.known, owner)
    }
}

/// Whether the device is one of them.
pub(crate) fn has_owner(owners: &BTreeSet<(Mac, Mac)>, owner: (Mac, Mac)) -> bool
    ensures { result ≡ has_owner owners.now owner }
{
    owners.contains(&owner)
}

fn add_owner(owners: &mut BTreeSet<(Mac, Mac)>, owner: (Mac, Mac)) -> Result<(), NoMemory>
    ensures { OnOk result (IsAdded owner owners.old owners.new) }
{
    match owners.insert(owner) {
        Ok(_is_new) => Ok(()),
        Err(_refused) => Err(NoMemory),
    }
}

fn marked_owner(mark: &Mark) -> Option<(Mac, Mac)>
    ensures { result ≡ marked_owner mark.now }
{
    match mark.key {
        Key::Device(_) => match mark.tie {
            Tie::Device(owner) => owner,
            _ => None,
        },
        _ => None,
    }
}
