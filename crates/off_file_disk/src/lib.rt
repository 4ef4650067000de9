//! A disk over a file of the system: how it's opened or made, and its calls. It tells its length
//! and how often it failed, and nothing of what it holds.
#![tactic(auto)]

mod file_disk;
mod opening;

pub use file_disk::FileDisk;
pub use opening::{DiskErr, open_disk};
