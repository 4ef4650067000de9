//! Laws of the abstract office, over its definitions alone. Each function here does nothing: its
//! contract is the law.
#![tactic(auto)]

mod leases;

ghost use Rattle.off_laws.specs.Laws.{OneResult, SomeResult, OneEnd, LineTellsOutcome};
ghost use Rattle.off_laws.specs.Laws.{MomentIsGreatest};
ghost use Rattle.off_laws.specs.Laws.{MomentNeverFalls, RunKeepsGood, TablesByCommit, RunTells};
ghost use Rattle.off_laws.specs.Laws.{OneCommit, ChangesItsPart, QueriesChangeNothing};
ghost use Rattle.off_laws.specs.Laws.{AnsweredOnce, FewAreLive};

pub use leases::{
    a_command_drops_only_ended_leases, a_command_keeps_live_leases, a_devices_line_is_no_modems,
    a_line_tells_its_word, a_querys_line_is_no_messages, a_run_has_a_state_at_each_place,
    an_acknowledged_address_is_the_clients, an_import_keeps_all_leases, leases_stay_right,
    what_is_bound_stays_bound, what_is_offered_or_bound_stays_so,
};
use off_http::some_answer;

/// For a state, an event and an outcome there is one thing that the office says, and one state
/// after it.
pub fn an_event_gives_one_thing()
    ensures { OneResult }
{}

/// For a state and an event there is something that the office does. `heard` is what has come of
/// the event's connection, with what it brings; it is read without memory.
pub fn an_event_gives_something(heard: &[u8])
    ensures { SomeResult heard.now }
{
    some_answer(heard)
}

/// For a state and the turns of a run there is one state at its end.
pub fn a_run_has_one_end()
    ensures { OneEnd }
{}

/// The line says `memory` exactly where memory was wanted, and `keeper` exactly where the keeper of
/// the tables failed.
pub fn the_line_tells_the_outcome()
    ensures { LineTellsOutcome }
{}

/// The moment after an event is the greater of the moment before it and the event's.
pub fn the_moment_is_the_greatest_so_far()
    ensures { MomentIsGreatest }
{}

/// Over a run the moment never falls.
pub fn the_moment_never_falls()
    ensures { MomentNeverFalls }
{}

/// A run that begins with good tables ends with good tables.
pub fn a_run_keeps_good_tables()
    ensures { RunKeepsGood }
{}

/// The tables behind an event are those before it with what was committed.
pub fn the_tables_change_by_commits()
    ensures { TablesByCommit }
{}

/// The tables and the moment at the end of a run are told by its turns.
pub fn a_run_tells_its_tables()
    ensures { RunTells }
{}

/// A turn makes one commit at most, and none where it writes nothing.
pub fn a_turn_makes_one_commit_at_most()
    ensures { OneCommit }
{}

/// An event changes no more than its part of the state: of the connections only its own. Nothing is
/// written but by a piece of a clerk's connection whose line says `http 200`, and by a
/// modem's or a device's message whose word is one of those that act.
pub fn an_event_changes_its_part()
    ensures { ChangesItsPart }
{}

/// A relay's query changes nothing: its turn commits nothing, and the state behind it is the one
/// before it, but for the moment.
pub fn a_query_changes_nothing()
    ensures { QueriesChangeNothing }
{}

/// A piece of a clerk's connection is answered once at most, and once it is answered, or its
/// connection closed, that connection isn't among the live ones.
pub fn a_request_is_answered_once()
    ensures { AnsweredOnce }
{}

/// Over a run from the start at most eight connections are live at any time.
pub fn few_connections_are_live()
    ensures { FewAreLive }
{}
