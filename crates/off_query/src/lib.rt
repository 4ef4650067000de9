//! A relay's query for a lease: read, and answered over any keeper (RFC 4388).
//!
//! Reading a query takes no memory, and no call here writes anything. `reply` finds the pool of the
//! relay and that of an address by walks over the tables (`walking`), `reply_by` in what the office
//! keeps of its pools (`keeping`); the rows are read (`gathering`), the word is found by rules in
//! their order (`judging`), and what is sent for it is written (`replying`).
#![tactic(auto)]

mod answering;
mod asking;
mod gathering;
mod judging;
mod keeping;
mod pools;
mod reading;
mod replying;
mod walking;

pub use answering::{reply, reply_by};
pub use off_query_rules::{QueryStep, QueryWord};
pub use reading::{Query, query_or_message};
