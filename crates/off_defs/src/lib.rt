//! What the office speaks of: events, keys, rows and writes, as plain types, with how the tables
//! are read and written (`specs/`).
//!
//! When tables are good stands in `off_account_rules`; what clerks order, and what it does, in
//! `off_orders`; one event, and a run of them, in `off_book`.
#![tactic(auto)]

mod bounds;
mod clock;
mod copies;
mod events;
mod keys;
mod kinds;
mod labels;
mod results;
mod settings;
mod tables;
mod writes;

pub use bounds::{ADD_ONS, LAST_ADD_ON, LEAST_PREFIX, MOST_DEVICES, MOST_PREFIX};
pub use clock::time_of_day;
pub use copies::copy_row;
pub use events::{Event, Service, What};
pub use keys::Key;
pub use kinds::Kind;
pub use labels::{KeyText, key_text};
pub use results::{Outcome, Sent};
pub use settings::SharedSettings;
pub use tables::{
    Batch, Class, DeviceHold, DeviceLease, Hold, ImportKind, Lease, Modem, Pool, Row, Site,
    Subscriber,
};
pub use writes::{Write, Writes};
