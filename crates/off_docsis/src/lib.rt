//! What a cable modem says of itself in DHCP, and what a relay says of the way to it.
//!
//! CableLabs CANN-DHCP-Reg defines options 43 and 60 of modems, RFC 3046 option 82.
#![tactic(auto)]

mod agent;
mod class;
mod spans;
mod vendor;

pub use agent::{RelayParts, relay};
pub use class::is_modem;
pub use spans::{PartCut, Span};
pub use vendor::{DeviceParts, device};
