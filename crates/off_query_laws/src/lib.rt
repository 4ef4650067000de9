//! Laws of queries, over the definitions alone. Each function here does nothing: its contract is
//! the law.
#![tactic(auto)]

ghost use Rattle.off_query_laws.specs.Laws.{SeenAlike, MessagesAreNoQueries};

/// Two good tables that agree on the relay's pool and its hub, on which addresses are that hub's,
/// and on the leases of these, answer each query of the relay alike.
pub fn a_query_sees_its_hub_alone()
    ensures { SeenAlike }
{}

/// A message of another kind than a query's is no query.
pub fn a_message_is_no_query()
    ensures { MessagesAreNoQueries }
{}
