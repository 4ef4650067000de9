//! What a device's message does to the leases of its pool, and how it is answered, in definitions
//! alone (`specs/`). A device is a client behind a cable modem.
#![tactic(auto)]

mod cases;
mod results;
mod words;

pub use cases::DeviceCase;
pub use results::DeviceStep;
pub use words::DeviceWord;
