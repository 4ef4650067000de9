ghost use Rattle.off_lease_laws.specs.Laws.{EachHasAnOutcome, StepIsOne, StepIsThere, MessagesDo};
ghost use Rattle.off_lease_laws.specs.Laws.{FaultsDoNothing, RefusalsChangeNothing, MessagesMove};
ghost use Rattle.off_lease_laws.specs.Laws.{AgreementStays, OnlyLeasesChange, GoodStays};
ghost use Rattle.off_lease_laws.specs.Laws.{CountsStay, LeastIsLeast, ChoiceFits, FreeStandsFree};
ghost use Rattle.off_lease_laws.specs.Laws.{LiveForItsOwner, OneLeaseAClient, DatagramsLeaveFit};
ghost use Rattle.off_lease_laws.specs.Laws.{AcksBind, LeasesLast, OffersHold, DeclinesRest};
ghost use Rattle.off_lease_laws.specs.Laws.{ReleasesFree};

/// Each message has one of five outcomes: it is refused, or an address is offered, bound, declined
/// or released, each by the rows that the tables have.
pub fn each_message_has_an_outcome()
    ensures { EachHasAnOutcome }
{}

/// A datagram does one thing at a moment to tables.
pub fn a_datagram_does_one_thing()
    ensures { StepIsOne }
{}

/// Each datagram does something: there is a result for all tables, moments and bytes.
pub fn each_datagram_does_something()
    ensures { StepIsThere }
{}

/// A datagram that is a message does what the message does.
pub fn a_datagram_does_what_its_message_does()
    ensures { MessagesDo }
{}

/// A datagram that is no message has its fault's word, no reply, and changes nothing.
pub fn a_fault_does_nothing()
    ensures { FaultsDoNothing }
{}

/// A message that is refused writes nothing.
pub fn a_refusal_changes_nothing()
    ensures { RefusalsChangeNothing }
{}

/// Where leases and holders agree, a message moves one client to one address or changes nothing.
/// That address was the client's or free, and a pool has it if the client owns it then.
pub fn a_message_moves_one_client()
    ensures { MessagesMove }
{}

/// Where leases and holders agree, they agree after a message.
pub fn leases_and_holders_still_agree()
    ensures { AgreementStays }
{}

/// A message changes no row but leases and those of who holds them.
pub fn only_leases_change()
    ensures { OnlyLeasesChange }
{}

/// A message leaves good tables good.
pub fn good_tables_stay_good()
    ensures { GoodStays }
{}

/// A message changes none of the counts that the office keeps of the tables.
pub fn counts_stay()
    ensures { CountsStay }
{}

/// Whatever a datagram does, good tables are good again, the counts are the same, and only leases
/// change.
pub fn a_datagram_leaves_what_fits()
    ensures { DatagramsLeaveFit }
{}

/// The least free address of a pool is the least member of the set of its free addresses, and there
/// is none only where the set is empty.
pub fn the_least_is_the_least()
    ensures { LeastIsLeast }
{}

/// A chosen address lies in the pool, and is the client's own or free; none is chosen only where no
/// address of the pool is either.
pub fn a_choice_fits()
    ensures { ChoiceFits }
{}

/// Each address of a pool is free or live, and it stands free exactly where it's in the set of free
/// ones.
pub fn free_addresses_stand_free()
    ensures { FreeStandsFree }
{}

/// An address is live for nobody but the owner of its lease, so for one client at most.
pub fn an_address_is_live_for_its_owner()
    ensures { LiveForItsOwner }
{}

/// Where leases and holders agree, no client owns two leases.
pub fn a_client_owns_one_lease()
    ensures { OneLeaseAClient }
{}

/// Where leases and holders agree, a client is offered an address that it holds then: for two
/// minutes, or it is bound to it already. A pool has that address.
pub fn an_offer_is_held()
    ensures { OffersHold }
{}

/// After an ACK the client is bound to the address for which it asked and which the ACK names, one
/// of a pool, for as long as the site's leases last.
pub fn an_ack_binds()
    ensures { AcksBind }
{}

/// A declined address rests for ten minutes, and its client holds nothing.
pub fn a_declined_address_rests()
    ensures { DeclinesRest }
{}

/// A released address has no lease, and its client holds nothing.
pub fn a_released_address_is_free()
    ensures { ReleasesFree }
{}

/// Until it ends, what is offered or bound to a client outlasts each message of another client, and
/// each of its own that is refused.
pub fn a_lease_lasts()
    ensures { LeasesLast }
{}
