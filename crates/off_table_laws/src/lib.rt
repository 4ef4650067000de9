//! Laws of good tables, over the definitions alone.
//! Each function here does nothing: its contract is the law.
#![tactic(auto)]

ghost use Rattle.off_table_laws.specs.Laws.{OneLeaseAModem};
ghost use Rattle.off_table_laws.specs.Laws.{OwnersHold, PoolsAreApart, ModemsStand, AddOnsStand};
ghost use Rattle.off_table_laws.specs.Laws.{LeasesStand, OpeningHaveNoBadKey, OneJudgement};
ghost use Rattle.off_table_laws.specs.Laws.{SeenAsTheyStand, HubOfPool, MigratedAreGood, GoodStay};
ghost use Rattle.off_table_laws.specs.Laws.{MigrationKeepsLeases, OneAddressADevice};
ghost use Rattle.off_table_laws.specs.Laws.{DevicesLieInAPool, PoolsHaveNoDevices};

/// In good tables a modem owns the lease of one address at most.
pub fn a_modem_owns_one_lease()
    ensures { OneLeaseAModem }
{}

/// In good tables a modem owns the lease of an address exactly where it holds that address.
pub fn owners_hold_their_addresses()
    ensures { OwnersHold }
{}

/// In good tables no address lies in two pools.
pub fn no_address_lies_in_two_pools()
    ensures { PoolsAreApart }
{}

/// In good tables the subscriber and the class of each modem are there.
pub fn a_modem_has_its_subscriber_and_class()
    ensures { ModemsStand }
{}

/// In good tables the subscriber of each add-on is there.
pub fn an_add_on_has_its_subscriber()
    ensures { AddOnsStand }
{}

/// In good tables an address of a pool has the pool's hub.
pub fn an_address_has_its_pools_hub()
    ensures { HubOfPool }
{}

/// In good tables the hub of a lease's address has its site, and the address lies in one pool, in
/// no other.
pub fn a_lease_lies_in_one_pool()
    ensures { LeasesStand }
{}

/// In good tables a device has one address at most behind a modem.
pub fn a_device_has_one_address()
    ensures { OneAddressADevice }
{}

/// In good tables a device's address lies in one pool for devices, and in no other.
pub fn a_device_lies_in_one_pool()
    ensures { DevicesLieInAPool }
{}

/// In good tables no address of a pool of modems is a device's.
pub fn pools_of_modems_have_no_devices()
    ensures { PoolsHaveNoDevices }
{}

/// Tables that open are good as soon as the site of earlier days is the hub 0.
pub fn migrated_tables_are_good()
    ensures { MigratedAreGood }
{}

/// Good tables have nothing to migrate.
pub fn good_tables_stay()
    ensures { GoodStay }
{}

/// Pools, their hubs' numbers, leases and who holds them are the same after the migration as
/// before, and so are the pools for devices and the leases of devices.
pub fn the_migration_keeps_leases()
    ensures { MigrationKeepsLeases }
{}

/// Tables that open have no least bad key.
pub fn opening_tables_have_no_bad_key()
    ensures { OpeningHaveNoBadKey }
{}

/// A test of tables has one answer: that they open, or their least bad key.
pub fn tables_have_one_judgement()
    ensures { OneJudgement }
{}

/// In good tables each row is read as it stands, and the pools of either kind that are read are
/// all.
pub fn good_tables_are_seen_as_they_stand()
    ensures { SeenAsTheyStand }
{}
