//! What a client's DHCP message does to leases, and how it is answered (RFC 2131), in definitions
//! alone (`specs/`).
#![tactic(auto)]

mod cases;
mod results;
mod words;

pub use cases::Case;
pub use results::LeaseStep;
pub use words::DhcpWord;
