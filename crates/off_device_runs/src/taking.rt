//! What is taken for a write, so that pools for devices are kept as pools of modems are.

ghost use Rattle.std.specs.Prelude.{◌≡◌, ◌++◌, [], IfOk, OnOk};
ghost use Rattle.std.specs.List.{cons_option};
ghost use Rattle.off_device_runs.specs.Ground.{end_held, taken_for, taken_all};

use off_base::{Moment, NoMemory};
use off_defs::{Hold, Key, Lease, Row, Write, Writes, copy_row};
use std::alloc::Global;

/// What is taken for writes, each in its turn.
pub(crate) fn taken_all(alloc: Global, writes: &Writes) -> Result<Writes, NoMemory>
    ensures { IfOk result (λ taken. taken ≡ taken_all writes.now) }
{
    let mut taken = Writes::new(alloc);
    for place in 0..writes.len() {
        push_taken(alloc, &mut taken, writes.get(place))?;
    }
    Ok(taken)
}

/// Appends what is taken for a write, if anything is.
pub(crate) fn push_taken(alloc: Global, taken: &mut Writes, write: &Write) -> Result<(), NoMemory>
    ensures { OnOk result (taken.new ≡ taken.old ++ cons_option (taken_for write.now) []) }
{
    match taken_for(alloc, write)? {
        Some(write) => taken.push(write),
        None => Ok(()),
    }
}

// What is taken for a write, or `None` where it's of no pool and no lease of devices.
fn taken_for(alloc: Global, write: &Write) -> Result<Option<Write>, NoMemory>
    ensures { IfOk result (λ taken. taken ≡ taken_for write.now) }
{
    match write {
        Write::Put(Key::DevicePool(number), row) => {
            let pool = copy_row(alloc, row)?;
            Ok(Some(Write::Put(Key::Pool(*number), pool)))
        }
        Write::Drop(Key::DevicePool(number)) => Ok(Some(Write::Drop(Key::Pool(*number)))),
        Write::Put(Key::Device(address), row) => {
            let lease = Lease {
                hold: Hold::Declined,
                expiry: end_held(row),
            };
            Ok(Some(Write::Put(Key::Lease(*address), Row::Lease(lease))))
        }
        Write::Drop(Key::Device(address)) => Ok(Some(Write::Drop(Key::Lease(*address)))),
        _ => Ok(None),
    }
}

// When the lease of a row ends, or moment 0 where it's none of a device.
fn end_held(row: &Row) -> Moment
    ensures { result.0 ≡ end_held row.now }
{
    match row {
        Row::Device(lease) => lease.expiry,
        _ => Moment(0),
    }
}
