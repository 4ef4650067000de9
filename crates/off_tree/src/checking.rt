ghost use Rattle.std.specs.Prelude.{◌≡◌, ◌↔◌, IsOk};
ghost use Rattle.off_tree.specs.Fault.{first_fault, flow_fault, classifier_fault, length_fault};
ghost use Rattle.off_tree.specs.Fault.{size_limit};
ghost use Rattle.off_tree.specs.Good.{GoodSettings, checked};
ghost use Rattle.off_tree.specs.declared.tables.Kind.TheVariants.{Class as a_class};
ghost use Rattle.off_tree.specs.declared.tables.Kind.TheVariants.{AddOn as an_add_on};

use crate::lengths::{long_part, spelled_length, too_many};
use crate::paths::{Path, TreeFault};
use crate::references::{lost_flow, repeated_classifier, repeated_flow};
use crate::shapes::parts_fault;
use crate::tables::{Kind, Level};
use off_base::Settings;

/// Whether a class's settings are good by the tables, or their first broken rule. It takes no
/// memory.
///
/// Its time is in proportion to the number of settings.
pub fn check_class(settings: &Settings) -> Result<(), TreeFault>
    ensures first { result ≡ checked (first_fault a_class settings.now) }
    ensures good { IsOk result ↔ GoodSettings a_class settings.now }
{
    check(Kind::Class, settings)
}

/// Whether an add-on's settings are good by the tables, or their first broken rule. It takes no
/// memory.
pub fn check_addon(settings: &Settings) -> Result<(), TreeFault>
    ensures first { result ≡ checked (first_fault an_add_on settings.now) }
    ensures good { IsOk result ↔ GoodSettings an_add_on settings.now }
{
    check(Kind::AddOn, settings)
}

fn check(kind: Kind, settings: &Settings) -> Result<(), TreeFault>
    ensures { result ≡ checked (first_fault kind settings.now) }
{
    if let Some(fault) = parts_fault(Level::Top(kind), Path::ROOT, settings) {
        return Err(fault);
    }
    if let Some(fault) = flow_fault(settings) {
        return Err(fault);
    }
    if let Some(fault) = classifier_fault(settings) {
        return Err(fault);
    }
    if let Some(fault) = length_fault(kind, settings) {
        return Err(fault);
    }
    Ok(())
}

fn flow_fault(settings: &Settings) -> Option<TreeFault>
    ensures { result ≡ flow_fault settings.now }
{
    match repeated_flow(settings) {
        Some(number) => Some(TreeFault::FlowReference(number)),
        None => match lost_flow(settings) {
            Some(number) => Some(TreeFault::FlowReference(number)),
            None => None,
        },
    }
}

fn classifier_fault(settings: &Settings) -> Option<TreeFault>
    ensures { result ≡ classifier_fault settings.now }
{
    match repeated_classifier(settings) {
        Some(number) => Some(TreeFault::ClassifierReference(number)),
        None => None,
    }
}

fn length_fault(kind: Kind, settings: &Settings) -> Option<TreeFault>
    ensures { result ≡ length_fault kind settings.now }
{
    match long_part(settings) {
        Some(length) => Some(TreeFault::TooLong(length)),
        None => match too_many(limit(kind), spelled_length(settings)) {
            Some(length) => Some(TreeFault::TooLong(length)),
            None => None,
        },
    }
}

// The most bytes of a whole tree's spelling.
fn limit(kind: Kind) -> u32
    ensures { result ≡ size_limit kind }
{
    match kind {
        Kind::Class => 2048,
        Kind::AddOn => 512,
    }
}
