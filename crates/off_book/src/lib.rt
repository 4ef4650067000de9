//! The book: what the office does, in definitions alone (`specs/`): one event, a run of events, the
//! words of the command line.
//!
//! There is no code here. Whoever has read `specs/` of this crate and of the crates below it, which
//! have the formats, the tables and the clerks' rules, has read all that has to be believed of the
//! office.
#![tactic(auto)]
