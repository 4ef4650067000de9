//! Laws of devices' leases, over the definitions alone. Each function here does nothing: its
//! contract is the law.
#![tactic(auto)]

ghost use Rattle.off_cpe_laws.specs.Laws.{OneAddressStays, OthersDontGrow, LimitHolds};
ghost use Rattle.off_cpe_laws.specs.Laws.{StepKeepsGood};

/// A message leaves each device one address at most behind a modem.
pub fn a_device_keeps_one_address()
    ensures { OneAddressStays }
{}

/// A device's message gives other devices nothing.
pub fn other_devices_dont_grow()
    ensures { OthersDontGrow }
{}

/// After an OFFER or an ACK no more devices have addresses behind the modem than its subscriber may
/// have.
pub fn the_limit_holds()
    ensures { LimitHolds }
{}

/// What a device's message leaves of good tables is good.
pub fn a_message_keeps_good_tables()
    ensures { StepKeepsGood }
{}
