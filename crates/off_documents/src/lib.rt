//! One JSON text (RFC 8259), read whole and looked into: a node of 24 bytes for each of its tokens,
//! and nothing for what stands within.
//!
//! What a text means is the definition of `serde_json`: arrays and objects stand 127 within one
//! another at most, no number is too large for a float, and of several members with one name the
//! last counts. A value's text isn't copied, and a number is converted where it's read.
#![tactic(auto)]

mod documents;
mod levels;
mod numbers;
mod parts;

pub use documents::{Document, DocumentErr};
pub use parts::{Part, Parts};
