//! What writes make of the tables' pools for devices and of the leases of devices.

ghost use Rattle.off_device_runs.specs.Ground.{DevicesMove};

/// Whatever writes are done over tables that open: the pools for devices and the leases of devices
/// after them are those before, changed by what is taken for one write after another.
pub fn writes_move_devices()
    ensures { DevicesMove }
{}
