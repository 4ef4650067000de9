//! Laws of booting, over the definitions alone: a modem that asks is answered. Each function here
//! does nothing: its contract is the law.
#![tactic(auto)]

ghost use Rattle.off_boot_laws.specs.Stages.{DiscoversAreOffered, RequestsAreAcknowledged};
ghost use Rattle.off_boot_laws.specs.Stages.{ReadsAreAccepted};
ghost use Rattle.off_boot_laws.specs.Waiting.{WhoWaitsKeeps, LeftAloneWaits, MostDoNotServe};
ghost use Rattle.off_boot_laws.specs.Boot.{WhoAsksGetsItsFile, WhoAsksBoots};
ghost use Rattle.off_boot_laws.specs.Keeping.{WhoAsksAgainKeeps};
ghost use Rattle.off_boot_laws.specs.Served.{AllAreServed};
ghost use Rattle.off_boot_laws.specs.Between.{RowsStay};
ghost use Rattle.off_boot_laws.specs.Went.{AllGoWell};

/// A known modem that discovers is offered an address.
pub fn a_modem_is_offered_an_address()
    ensures { DiscoversAreOffered }
{}

/// A known modem that requests the address that it holds gets it.
pub fn a_modem_gets_what_it_was_offered()
    ensures { RequestsAreAcknowledged }
{}

/// A modem that asks for its file while its lease lasts is given it.
pub fn a_modem_is_given_its_file()
    ensures { ReadsAreAccepted }
{}

/// A modem that waits keeps its address, whatever others do and however often it asks again.
pub fn a_modem_that_waits_keeps_its_address()
    ensures { WhoWaitsKeeps }
{}

/// A modem waits where no turn serves it before its lease ends.
pub fn a_modem_that_is_left_alone_waits()
    ensures { LeftAloneWaits }
{}

/// No turn serves a modem but by its own message, and none on which the office couldn't act.
pub fn most_turns_do_not_serve_a_modem()
    ensures { MostDoNotServe }
{}

/// Rows that no commit writes are read as before: the modem's, its pool's, the one that names the
/// pool's hub, and the hub's.
pub fn rows_that_are_left_stay()
    ensures { RowsStay }
{}

/// A modem that acknowledges what it is sent, while its lease lasts, gets the whole file.
pub fn a_modem_that_acknowledges_gets_its_file()
    ensures { WhoAsksGetsItsFile }
{}

/// A modem that asks boots, from each place of a run: it is offered an address, gets it, and gets
/// its file.
pub fn a_modem_that_asks_boots()
    ensures { WhoAsksBoots }
{}

/// A modem that asks again for its address before its lease ends keeps it, and is answered, as
/// often as it asks.
pub fn a_modem_that_asks_again_keeps_its_address()
    ensures { WhoAsksAgainKeeps }
{}

/// And so for every modem where every turn of a run goes well.
pub fn all_modems_are_served()
    ensures { AllAreServed }
{}

/// Where every event is acted on and no item is lost, every turn goes well.
pub fn all_turns_go_well()
    ensures { AllGoWell }
{}
