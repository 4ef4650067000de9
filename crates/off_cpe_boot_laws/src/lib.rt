//! Laws of devices behind modems that ask, over the definitions alone: who may have an address gets
//! one. Each function here does nothing: its contract is the law.
#![tactic(auto)]

ghost use Rattle.off_cpe_boot_laws.specs.Known.{WhoIsBehind};
ghost use Rattle.off_cpe_boot_laws.specs.Stages.{DevicesAreOffered, DevicesAreAcknowledged};
ghost use Rattle.off_cpe_boot_laws.specs.Waiting.{WaitingDevicesKeep, DeviceLeasesOutlast};
ghost use Rattle.off_cpe_boot_laws.specs.Waiting.{DevicesLeftAloneWait, MostDoNotServeDevices};
ghost use Rattle.off_cpe_boot_laws.specs.Limit.{WaitingDevicesKeepTheirPlace};
ghost use Rattle.off_cpe_boot_laws.specs.Binding.{DevicesThatAskAreBound};
ghost use Rattle.off_cpe_boot_laws.specs.Keeping.{DevicesThatAskAgainKeep};
ghost use Rattle.off_cpe_boot_laws.specs.Served.{AllDevicesAreServed};
ghost use Rattle.off_cpe_boot_laws.specs.Example.{SomeAsk, AllCanBeMet};

/// A client is behind a modem that its relay names, or behind which it has the address that it
/// renews or releases.
pub fn a_client_is_behind_the_modem_that_is_named()
    ensures { WhoIsBehind }
{}

/// A device below its modem's limit that discovers is offered an address.
pub fn a_device_is_offered_an_address()
    ensures { DevicesAreOffered }
{}

/// A device below its modem's limit that requests its own address gets it.
pub fn a_device_gets_what_it_was_offered()
    ensures { DevicesAreAcknowledged }
{}

/// A device that waits keeps its address, whatever others do and however often it asks again.
pub fn a_device_that_waits_keeps_its_address()
    ensures { WaitingDevicesKeep }
{}

/// A device's lease stays as it is until it ends, where no turn serves the device.
pub fn a_device_that_is_left_alone_keeps_its_lease()
    ensures { DeviceLeasesOutlast }
{}

/// A device waits where no turn serves it before its lease ends.
pub fn a_device_that_is_left_alone_waits()
    ensures { DevicesLeftAloneWait }
{}

/// While a device waits its address counts for its modem: others get no more than the rest.
pub fn a_device_that_waits_keeps_its_place()
    ensures { WaitingDevicesKeepTheirPlace }
{}

/// No turn serves a device but by its own message, and none on which the office couldn't act.
pub fn most_turns_do_not_serve_a_device()
    ensures { MostDoNotServeDevices }
{}

/// A device that discovers, and requests what it was offered before that ends, in two minutes, is
/// bound to it, from each place of a run.
pub fn a_device_that_asks_is_bound()
    ensures { DevicesThatAskAreBound }
{}

/// A device that asks again for its address before its lease ends keeps it, and is answered, as
/// often as it asks.
pub fn a_device_that_asks_again_keeps_its_address()
    ensures { DevicesThatAskAgainKeep }
{}

/// And so for every device where every turn of a run goes well.
pub fn all_devices_are_served()
    ensures { AllDevicesAreServed }
{}

/// There are turns of the office in which a device discovers and requests.
pub fn there_is_a_device_that_asks()
    ensures { SomeAsk }
{}

/// What these laws ask of a device and of the office can be met together: such a device is bound.
pub fn all_that_is_asked_can_be_met()
    ensures { AllCanBeMet }
{}
