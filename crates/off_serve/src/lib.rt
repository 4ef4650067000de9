//! The top call: does what the words of the command line ask, and answers the exit status.
#![tactic(auto)]

mod serving;

pub use serving::run;
