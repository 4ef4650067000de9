//! Laws of leases, over the definitions alone. Each function here does nothing: its contract is the
//! law.
#![tactic(auto)]

mod laws;

pub use laws::{
    a_choice_fits, a_client_owns_one_lease, a_datagram_does_one_thing,
    a_datagram_does_what_its_message_does, a_datagram_leaves_what_fits, a_declined_address_rests,
    a_fault_does_nothing, a_lease_lasts, a_message_moves_one_client, a_refusal_changes_nothing,
    a_released_address_is_free, an_ack_binds, an_address_is_live_for_its_owner, an_offer_is_held,
    counts_stay, each_datagram_does_something, each_message_has_an_outcome,
    free_addresses_stand_free, good_tables_stay_good, leases_and_holders_still_agree,
    only_leases_change, the_least_is_the_least,
};
