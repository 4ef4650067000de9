//! A law of drills: each modem of a drill meets what the law of booting asks. Each function
//! does nothing: its contract is the law.
#![tactic(auto)]

ghost use Rattle.off_boot_drill.specs.Met.{EachMeetsAll, EachAcknowledgesAll};

/// Each modem of a drill meets all that booting asks of it.
pub fn each_modem_of_a_drill_meets_all()
    ensures { EachMeetsAll }
{}

/// And it acknowledges all of its file.
pub fn each_modem_of_a_drill_acknowledges_all()
    ensures { EachAcknowledgesAll }
{}
