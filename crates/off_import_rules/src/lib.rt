//! What the bytes of an import mean, in definitions alone (`specs/`), with the types that they
//! speak of.
#![tactic(auto)]

mod bounds;
mod faults;

pub use bounds::MOST_ROWS;
pub use faults::{ImportErr, ImportFault};
