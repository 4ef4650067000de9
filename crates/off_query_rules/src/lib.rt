//! What a relay's query for a lease asks, and how it is answered (RFC 4388), in definitions alone
//! (`specs/`).
#![tactic(auto)]

mod cases;
mod questions;
mod results;
mod wanted;
mod words;

pub use cases::QueryCase;
pub use questions::Question;
pub use results::QueryStep;
pub use wanted::Wanted;
pub use words::QueryWord;
