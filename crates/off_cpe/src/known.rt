use off_behind::Devices;
use off_device_runs::DeviceRuns;
use off_runs::FreeRuns;

/// What is known of the tables without a look at them.
#[derive(Drop)]
pub struct Known<'k> {
    /// The leases of devices by the modem that they are behind.
    pub devices: &'k Devices,
    /// The pools for devices, with their free addresses.
    pub pools: &'k DeviceRuns,
    /// The pools of modems, with their hubs.
    pub modems: &'k FreeRuns,
}
