//! Bodies that were built, kept for the modems that asked last.
//!
//! A modem's body depends on its own row, its subscriber's with the add-ons, and its class's. So it
//! may serve again until one of these is written, when it's forgotten (`forgetting`). What is kept
//! stays right by that (`laws`).
#![tactic(auto)]

mod bodies;
mod forgetting;
mod kept;
mod laws;

pub use bodies::KeptBody;
pub use kept::Kept;
pub use laws::{
    a_found_body_is_right, a_right_entry_has_its_modems_profile, a_right_entry_may_be_first,
    kept_bodies_stay_right,
};
