//! Runs of free addresses of the pools for devices: what is kept of these pools and of the leases
//! of devices, so that the least free address of a pool, and whether an address is free, are told
//! without the tables.
//!
//! They are kept as those of pools of modems are (`off_runs`), by the same machine: a write of a
//! pool for devices is taken as one of a pool of modems with the same number, and a write of a
//! device's lease as one of a modem's lease with the same end. So the writes that are to be done go
//! through `ready`, and what it gives is handed to `apply` once they are done.
#![tactic(auto)]

mod device_runs;
mod laws;
mod reading;
mod taking;

pub use device_runs::DeviceRuns;
pub use laws::writes_move_devices;
