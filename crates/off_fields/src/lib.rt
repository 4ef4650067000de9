//! The fields of a clerk's JSON text (RFC 8259), read as a row: an object's members by their names,
//! each of its kind and range, and the settings of a class or an add-on.
//!
//! What a body means, and which of its fields is the first that is missing or wrong, stands in
//! `off_clerk_rules`.
#![tactic(auto)]

mod bodies;
mod fields;
mod trees;
mod values;

pub use bodies::{
    add_on_of, class_of, hub_of_pool, modem_of, object_of, pool_of, site_of, subscriber_of,
};
pub use fields::LAST_NUMBER;
