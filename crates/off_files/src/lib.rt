//! A modem's configuration file: its name; its profile, out of the rows of its subscriber, its
//! class and its add-ons; and the file itself, signed, as the body that the profile spells, the
//! tail of a moment and an address, and the blocks of both.
//!
//! The file is never joined. A body serves any number of tails, and a block is written from the
//! two.
#![tactic(auto)]

mod add_ons;
mod blocks;
mod bodies;
mod held;
mod names;
mod profiles;
mod raising;
mod tails;

pub use add_ons::AddOns;
pub use blocks::{BlockPieces, block, pieces};
pub use bodies::Body;
pub use names::file_name;
pub use profiles::profile_of;
pub use tails::{FileTail, tail};
