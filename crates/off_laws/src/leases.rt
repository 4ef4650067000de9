ghost use Rattle.off_laws.specs.Leases.{RunsHavePlaces, LeasesStayRight};
ghost use Rattle.off_laws.specs.Leases.{CommandsDropEnded, CommandsKeepLive, ImportsKeepLeases};
ghost use Rattle.off_laws.specs.Leases.{LinesTellWords, QueriesSayNone, DevicesSayNone};
ghost use Rattle.off_laws.specs.Leases.{LeasesOutlast, BindingsOutlast, AcknowledgedIsGiven};

/// A run has a state at each of its places: up to there it is a run, and from there.
pub fn a_run_has_a_state_at_each_place()
    ensures { RunsHavePlaces }
{}

/// In every state of a run leases and holders agree, and each address stands free, offered, bound
/// or resting, in one of these ways alone; no address is live for two clients, no client owns two
/// leases, and each address with a lease lies in one pool.
pub fn leases_stay_right()
    ensures { LeasesStayRight }
{}

/// A clerk's command leaves each address's lease as it is, or drops one that has ended. So it makes
/// no lease and changes none.
pub fn a_command_drops_only_ended_leases()
    ensures { CommandsDropEnded }
{}

/// A clerk's command leaves each lease that hasn't ended as it is, whatever the command.
pub fn a_command_keeps_live_leases()
    ensures { CommandsKeepLive }
{}

/// An import leaves all leases as they are.
pub fn an_import_keeps_all_leases()
    ensures { ImportsKeepLeases }
{}

/// The lines of different words differ.
pub fn a_line_tells_its_word()
    ensures { LinesTellWords }
{}

/// A line of a relay's query is none of a client's message.
pub fn a_querys_line_is_no_messages()
    ensures { QueriesSayNone }
{}

/// A line of a device's message is none of a modem's, but for messages of kinds that aren't served.
pub fn a_devices_line_is_no_modems()
    ensures { DevicesSayNone }
{}

/// What is offered or bound to a client stays so: until it ends, its lease is the same in every
/// later state of a run in which no turn has served the client.
pub fn what_is_offered_or_bound_stays_so()
    ensures { LeasesOutlast }
{}

/// What is bound stays bound: until it ends, a binding is the same in every later state of a run in
/// which no turn has served its client.
pub fn what_is_bound_stays_bound()
    ensures { BindingsOutlast }
{}

/// Behind a turn that acknowledges a client's message the client is bound to the address for which
/// it asked, and that it was told, for as long as the site's leases last, in every later state of a
/// run in which no further turn has served it.
pub fn an_acknowledged_address_is_the_clients()
    ensures { AcknowledgedIsGiven }
{}
