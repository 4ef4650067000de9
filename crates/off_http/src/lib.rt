//! HTTP sessions: one request (RFC 9112) on a connection, in whatever pieces it comes, and its
//! reply.
//!
//! What the bytes of a connection say is a matter of all of them together, and not of how they
//! were cut. Chunked and coded bodies aren't taken, and a connection carries one request.
#![tactic(auto)]

mod answers;
mod heads;
mod laws;
mod lengths;
mod replies;
mod sessions;
mod stages;

pub use answers::{Fed, HttpFault};
pub use laws::{answers_stay, one_answer, some_answer};
pub use replies::reply_bytes;
pub use sessions::Session;
