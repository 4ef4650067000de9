//! Laws of isolation, over whole runs of the abstract office: what one address gets from the TFTP
//! port doesn't depend on other subscribers. Each function here does nothing: its contract is the
//! law.
#![tactic(auto)]

ghost use Rattle.off_isolation.specs.Laws.{RunsAreIsolated, RunsAreIsolatedFrom};
ghost use Rattle.off_isolation.specs.Laws.{AloneIsOne, AloneIsThere};
ghost use Rattle.off_isolation.specs.Laws.{SameView, ViewsGiveTheSame, RowsShowTheSame};
ghost use Rattle.off_isolation.specs.Laws.{BothGiveTheSame};
ghost use Rattle.off_isolation.specs.Others.{NothingElseGoes};
ghost use Rattle.off_transfer_laws.specs.SameRows.{SameRows};

/// Over a run from the start each address gets, by each of its datagrams and by each Tick, what it
/// gets where these are all that comes, over its own transfers alone.
pub fn an_address_gets_what_it_gets_alone()
    ensures { RunsAreIsolated }
{}

/// So it does from every state on, beginning with its own of the transfers that are live there.
pub fn an_address_is_alone_from_each_state_on()
    ensures { RunsAreIsolatedFrom }
{}

/// Nothing else goes to it from the TFTP port, but the ERROR by which a request of its own is
/// turned away while all transfers are taken and none is the peer's.
pub fn nothing_else_goes_to_an_address()
    ensures { NothingElseGoes }
{}

/// Alone an address gets one thing.
pub fn an_address_alone_gets_one_thing()
    ensures { AloneIsOne }
{}

/// And it gets something, whatever its events are.
pub fn an_address_alone_gets_something()
    ensures { AloneIsThere }
{}

/// Tables that show an address the same give it the same transfers, items and word.
pub fn equal_views_give_equal_answers()
    ensures { ViewsGiveTheSame }
{}

/// They show it the same where the site, the lease of the address, and the modem's row that owns
/// it, with its class, its subscriber and the subscriber's add-ons, are the same.
pub fn equal_rows_show_the_same()
    ensures { RowsShowTheSame }
{}

/// In two runs in which an address has the same events, moments and views it gets the same.
pub fn two_runs_give_an_address_the_same()
    ensures { BothGiveTheSame SameView }
{}

/// And so where in place of views the rows are the same that count for it.
pub fn two_runs_with_the_same_rows_give_the_same()
    ensures { BothGiveTheSame SameRows }
{}
