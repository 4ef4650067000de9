//! Configuration files of cable modems: the grammar, read and written.
//!
//! A file is a list of settings, one byte 255 and any number of zero bytes (CM-SP-MULPIv3.1, annex
//! D.1). `extent` and `read_settings` give what a file spells, or its first fault; `write_settings`
//! spells settings. `Tlvs` walks over one level and lends its parts.
#![tactic(auto)]

mod extents;
mod faults;
mod laws;
mod levels;
mod reading;
mod shapes;
mod walks;
mod writing;

pub use extents::extent;
pub use faults::{FileErr, ReadFault};
pub use laws::{a_file_has_a_reading_or_a_fault, a_file_has_one_reading};
pub use levels::{END_MARKER, PAD};
pub use reading::read_settings;
pub use shapes::is_shaped;
pub use walks::{Tlv, Tlvs};
pub use writing::{spelled_len, write_settings};
