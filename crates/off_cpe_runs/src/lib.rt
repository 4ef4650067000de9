//! Laws of devices' leases, over whole runs of the abstract office: how many devices behind a modem
//! have addresses, and which. Each function here does nothing: its contract is the law.
#![tactic(auto)]

ghost use Rattle.off_cpe_runs.specs.Laws.{DevicesStayRight, GrantsAreWithinLimits};
ghost use Rattle.off_cpe_runs.specs.Laws.{DevicesLeaveOthers, DevicesHoldOverRuns};

/// In every state of a run no address is live for two devices, no device has two behind one modem,
/// and each that one has lies in a pool for devices, and in no pool of modems.
pub fn devices_leases_stay_right()
    ensures { DevicesStayRight }
{}

/// Behind a turn that offers an address to a device, or acknowledges it, no more devices behind its
/// modem have live leases than the modem's subscriber may have.
pub fn what_is_granted_is_within_the_limit()
    ensures { GrantsAreWithinLimits }
{}

/// A turn that took a message of a device leaves every row but leases of devices as it was: so no
/// modem's lease, and none of who holds which.
pub fn a_devices_message_leaves_other_rows()
    ensures { DevicesLeaveOthers }
{}

/// All this holds at each turn of a run.
pub fn devices_hold_through_runs()
    ensures { DevicesHoldOverRuns }
{}
