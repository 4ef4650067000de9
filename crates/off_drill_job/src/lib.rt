//! The job `drill`: the whole office exercised from a number. It founds an office over tables
//! without rows, has so many modems boot in it, one after another, and tells what it counted.
#![tactic(auto)]

mod drilling;
mod exercising;
mod founding;
mod telling;

pub use drilling::{Ended, drill};
