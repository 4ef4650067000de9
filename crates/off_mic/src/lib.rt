//! The two message integrity checks of configuration files (CM-SP-MULPIv3.1, annexes C.1.1.6,
//! C.1.1.7 and D.1.3).
//!
//! `cm_mic` and `cmts_mic` compute the values over settings that are spelled in two pieces,
//! `verify` checks a file, and `seal` signs one. `Started` holds what both values take of settings
//! in front, which so serve any number of files, and `HmacKey` a secret that serves any number of
//! messages. Which settings the termination system's value covers, and in which order, is this
//! project's profile.
#![tactic(auto)]

mod checking;
mod digests;
mod feeding;
mod keyed;
mod keys;
mod laws;
mod sealing;
mod started;

pub use checking::{MicFault, Verdict, verify};
pub use digests::{cm_mic, cmts_mic};
pub use keyed::Hmac;
pub use keys::HmacKey;
pub use laws::{
    a_sealed_file_stays, a_sealed_file_verifies, a_verdict_tells, settings_have_one_sealed_file,
};
pub use sealing::seal;
pub use started::Started;
