//! Where a walk over the rows of one kind has passed by them: keys are ordered by kind first.

ghost use Rattle.std.specs.Prelude.{◌≡◌, nat_lt};
ghost use Rattle.off_rows.specs.KeyBytes.{kind_of};

use off_defs::Key;

/// Whether all keys of pools for devices are below this one.
pub fn is_past_device_pools(key: &Key) -> bool
    ensures { result ≡ nat_lt 12 (kind_of key.now) }
{
    matches!(*key, Key::Device(_))
}

/// Whether all keys of pools are below this one.
pub fn is_past_pools(key: &Key) -> bool
    ensures { result ≡ nat_lt 6 (kind_of key.now) }
{
    match *key {
        Key::Site | Key::Subscriber(_) | Key::AddOn(_, _) | Key::Modem(_) | Key::Class(_) => false,
        Key::Pool(_) => false,
        Key::Lease(_) | Key::Held(_) | Key::Batch(_) | Key::Hub(_) | Key::PoolHub(_) => true,
        Key::DevicePool(_) | Key::Device(_) => true,
    }
}
