//! Laws of what a clerk's command makes of good tables, over the definitions alone. Each function
//! here does nothing: its contract is the law.
#![tactic(auto)]

ghost use Rattle.off_order_laws.specs.Laws.{StepKeepsGood, RefusedChangesNothing};

/// What a clerk's command leaves of good tables is good, for each command that is sound, an import
/// too. The premise that a new site's secret has at most 64 bytes holds of each site that a program
/// has, by the secret's type.
pub fn a_step_keeps_good_tables()
    ensures { StepKeepsGood }
{}

/// A command that is refused changes no table.
pub fn a_refused_command_changes_nothing()
    ensures { RefusedChangesNothing }
{}
