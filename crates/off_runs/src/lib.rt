//! Runs of free addresses: what is kept of pools and of the leases of their addresses, so that the
//! least free address of a pool, and whether an address is free, are told without the tables.
#![tactic(auto)]

mod free_runs;
mod laws;
mod leases;
mod pool_runs;
mod pools;
mod reading;
mod runs;
mod shelf;

pub use free_runs::FreeRuns;
pub use laws::writes_move_leases;
pub use runs::Run;
