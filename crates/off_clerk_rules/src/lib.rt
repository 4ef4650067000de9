//! What a clerk's request means and what a clerk is answered, in definitions alone (`specs/`),
//! with the types that they speak of.
#![tactic(auto)]

mod faults;
mod names;
mod places;

pub use faults::{ClerkErr, CommandErr, Fault};
pub use names::Name;
pub use places::Place;
