//! The leases of devices by the modem that they are behind: a device's own address, and how many
//! others have one, without a walk over all leases.
#![tactic(auto)]

mod behind;
mod bucket;
mod buckets;
mod changes;
mod formers;
mod leases;
mod reading;
mod writing;

pub use behind::Devices;
pub use formers::read_olds;
pub use leases::{Neighbours, is_mac, owner_of};
