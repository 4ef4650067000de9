//! A disk in memory, which can tell what a crash may leave.
#![tactic(auto)]

mod mem_disk;
mod tearing;
mod writing;

pub use mem_disk::MemDisk;
