//! The drill: the whole office exercised from a number, in definitions alone (`specs/`): the rows
//! and the events of so many modems, the tables that they leave, and the numbers that they give.
#![tactic(auto)]

mod tally;

pub use tally::Tally;
