//! Laws of the drill, over the definitions alone. Each function here does nothing: its contract is
//! the law.
#![tactic(auto)]

ghost use Rattle.off_drill_rules.specs.Law.{DrillLaw, DrillIsThere, DrillSaysOneThing};

/// Who gives an office with so many modems, 4,000 at most, all that they send, and has it act on
/// each event, leaves it with the tables of the drill, and has counted its numbers.
pub fn the_drill_leaves_its_tables()
    ensures { DrillLaw }
{}

/// There are such turns.
pub fn the_drill_is_there()
    ensures { DrillIsThere }
{}

/// What they say is one thing.
pub fn the_drill_says_one_thing()
    ensures { DrillSaysOneThing }
{}
