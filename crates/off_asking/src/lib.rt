//! What a client's DHCP message says, whichever client it is of: its kind, the addresses that it
//! names, and what the client and its relay say of the client (RFC 2131, RFC 3046).
//!
//! `asking` reads each of its options once (`parts`); `claims` and `ruling` judge what it claims,
//! and `sending` says what is sent for it, and to whom. How an address is chosen is in definitions
//! alone (`specs/Choice.antt`), since it hangs on what is kept of the addresses.
#![tactic(auto)]

mod asking;
mod claims;
mod forms;
mod kinds;
mod parts;
mod ruling;
mod sending;

pub use asking::{
    Asked, asks, at_address, claimed, client, form_of, gives_back, is_discover, is_renewal,
    is_request, is_selecting,
};
pub use claims::{claims_wrongly, has_no_form, is_served, lacks_record, names_another_server};
pub use forms::{Form, Named};
pub use kinds::Kind;
pub use parts::{
    is_relay_cut, is_vendor_cut, relayed, relays_other, says_modem, says_other, says_other_serial,
};
pub use ruling::first_broken;
pub use sending::{nak_to, offer_named, reply_to};
