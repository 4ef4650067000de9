//! The outside of the office: what it takes events from, sends by, reads from and writes to, as
//! traits with their meanings and counts, and a form of each in memory.
//!
//! A meaning such as the events still to come may be told or not. What is told before a call is
//! told after it, and each call leaves it as it was but for what its clause says. Counters are kept
//! in 64 bits and stand still at the greatest.
#![tactic(auto)]

mod failing;
mod keeper;
mod link;
mod mem_link;
mod mem_streams;
mod outbox;
mod pass;
mod queue;
mod saying;
mod streams;

pub use failing::{Calls, Failing, one_more};
pub use keeper::{KeepErr, Keeper};
pub use link::{Failed, Link, LinkErr};
pub use mem_link::MemLink;
pub use mem_streams::{MemSink, MemSource};
pub use off_defs::{Event, Outcome, Sent, Service, What};
pub use outbox::SentRef;
pub use pass::Pass;
pub use queue::Events;
pub use saying::Replies;
pub use streams::{Sink, Source, ends_after};
