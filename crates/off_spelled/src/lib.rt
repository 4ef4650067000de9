//! Which rows have a spelling that can be read back.
#![tactic(auto)]

mod storable;

pub use storable::can_store;
