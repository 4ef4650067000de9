//! Who speaks to the link: from where no client's datagram comes, and a clerk's connection from its
//! accept to its end, with its number and what it has still to be sent.
#![tactic(auto)]

mod connection;
mod forging;
mod hearing;
mod numbers;
mod reflecting;
mod unsent;
mod wholeness;

pub use connection::{Connection, Heard};
pub use forging::is_forged;
pub use hearing::{Opened, PortTable, Ports};
pub use numbers::Numbers;
pub use reflecting::{OwnPorts, is_acknowledgement, is_reflection, is_time_answer};
pub use unsent::{ANSWER_ROOM, Sending, Unsent};
pub use wholeness::is_whole;
