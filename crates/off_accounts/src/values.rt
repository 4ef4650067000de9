ghost use Rattle.std.specs.Prelude.{◌≡◌, option_map};
ghost use Rattle.off_tree.specs.declared.tables.Kind.TheVariants as tree;
ghost use Rattle.off_tree.specs.Fault.{first_fault};
ghost use Rattle.off_orders.specs.declared.rules.Rule.TheVariants as rule;

use off_base::Settings;
use off_orders::Rule;
use off_tree::{check_addon, check_class};

/// The first fault of an add-on's settings, or `None` where they're good.
pub(crate) fn add_on_fault(settings: &Settings) -> Option<Rule>
    ensures { result ≡ option_map rule.Tree (first_fault tree.AddOn settings.now) }
{
    match check_addon(settings) {
        Ok(()) => None,
        Err(fault) => Some(Rule::Tree(fault)),
    }
}

/// The first fault of a class's settings, or `None` where they're good.
pub(crate) fn class_fault(settings: &Settings) -> Option<Rule>
    ensures { result ≡ option_map rule.Tree (first_fault tree.Class settings.now) }
{
    match check_class(settings) {
        Ok(()) => None,
        Err(fault) => Some(Rule::Tree(fault)),
    }
}
