//! How files go to modems by TFTP (RFC 1350), and what becomes of them as time passes, in
//! definitions alone (`specs/`).
#![tactic(auto)]

mod ticks;
mod words;

pub use ticks::Ticked;
pub use words::TftpWord;
