ghost use Rattle.std.specs.Prelude.{IsTrue, IfOk};
ghost use Rattle.off_orders.specs.Sound.{is_sound, is_shown, is_add_on_number};
ghost use Rattle.off_import_rules.specs.Reading.{import_in};
ghost use Rattle.off_clerk_rules.specs.Commands.{GivesWanted, command_read, asked_of, put_read};
ghost use Rattle.off_clerk_rules.specs.Commands.{as_import};
ghost use Rattle.off_clerk_rules.specs.Paths.{IsNamed};
ghost use Rattle.off_defs.specs.declared.keys.Key.TheVariants as key;

use crate::paths::{path_of, place_at};
use json::Scratch;
use off_base::Mac;
use off_clerk_rules::{ClerkErr, CommandErr, Place};
use off_defs::{ImportKind, Key};
use off_fields::{
    add_on_of, class_of, hub_of_pool, modem_of, object_of, pool_of, site_of, subscriber_of,
};
use off_import::read_import;
use off_import_rules::ImportErr;
use off_orders::Command;
use std::alloc::Global;

/// The command that a request means: its method (RFC 9110, section 9), its target's path up to the
/// first `?`, and its body.
///
/// The path is tested before the method, and both before the body is read. The body of a PUT is
/// one JSON object (RFC 8259), of which the first field in the order of the row's kind that is
/// missing or wrong is named; other fields are passed over. At the path of an import it is a table
/// (RFC 4180), whose first fault in the order of reading is told. Bodies of GET and DELETE aren't
/// read. `Memory` is want of memory.
pub fn command_of(
    alloc: Global,
    method: &[u8],
    path: &[u8],
    body: &[u8],
) -> Result<Command, CommandErr>
    ensures exact { GivesWanted (command_read method.now path.now body.now) result }
    ensures sound { IfOk result (λ command. IsTrue (is_sound command)) }
{
    match place_at(path_of(path)) {
        Some(place) => asked(alloc, place, method, body),
        None => Err(CommandErr::Fault(ClerkErr::NoPath)),
    }
}

// What a method asks at the place that a path names.
fn asked(alloc: Global, place: Place, method: &[u8], body: &[u8]) -> Result<Command, CommandErr>
    requires { IsNamed place }
    ensures exact { GivesWanted (asked_of place method.now body.now) result }
    ensures sound { IfOk result (λ command. IsTrue (is_sound command)) }
{
    match place {
        Place::Row { key, puts, deletes } => {
            if method == b"GET".as_slice() {
                return Ok(Command::Show(key));
            }
            if method == b"PUT".as_slice() && puts {
                return put(alloc, key, body);
            }
            if method == b"DELETE".as_slice() && deletes {
                return Ok(Command::Remove(key));
            }
            Err(CommandErr::Fault(ClerkErr::NoMethod))
        }
        Place::Import { kind, batch } => {
            if method == b"PUT".as_slice() {
                return import(alloc, kind, batch, body);
            }
            Err(CommandErr::Fault(ClerkErr::NoMethod))
        }
    }
}

fn import(alloc: Global, kind: ImportKind, batch: u64, body: &[u8]) -> Result<Command, CommandErr>
    ensures exact { GivesWanted (as_import (import_in kind batch body.now)) result }
    ensures sound { IfOk result (λ command. IsTrue (is_sound command)) }
{
    match read_import(alloc, kind, batch, body) {
        Ok(command) => Ok(command),
        Err(ImportErr::Fault(fault)) => Err(CommandErr::Fault(ClerkErr::Import(fault))),
        Err(ImportErr::Memory) => Err(CommandErr::Memory),
    }
}

fn put(alloc: Global, key: Key, body: &[u8]) -> Result<Command, CommandErr>
    requires { IsTrue (is_shown key) }
    ensures exact { GivesWanted (put_read key body.now) result }
    ensures sound { IfOk result (λ command. IsTrue (is_sound command)) }
{
    let mut scratch = Scratch::new(alloc);
    put_row(alloc, key, body, &mut scratch)
}

fn put_row(
    alloc: Global,
    key: Key,
    body: &[u8],
    scratch: &mut Scratch,
) -> Result<Command, CommandErr>
    requires { IsTrue (is_shown key) }
    ensures exact { GivesWanted (put_read key body.now) result }
    ensures sound { IfOk result (λ command. IsTrue (is_sound command)) }
{
    match key {
        Key::Hub(number) => put_hub(alloc, number, body, scratch),
        Key::Subscriber(number) => put_subscriber(alloc, number, body, scratch),
        Key::AddOn(owner, number) => put_add_on(alloc, owner, number, body, scratch),
        Key::Modem(mac) => put_modem(alloc, mac, body, scratch),
        Key::Class(number) => put_class(alloc, number, body, scratch),
        Key::Pool(number) => put_pool(alloc, number, body, scratch),
        Key::DevicePool(number) => put_device_pool(alloc, number, body, scratch),
        Key::Site => Err(CommandErr::Fault(ClerkErr::NoMethod)),
        Key::Lease(_) => Err(CommandErr::Fault(ClerkErr::NoMethod)),
        Key::Held(_) => Err(CommandErr::Fault(ClerkErr::NoMethod)),
        Key::Batch(_) => Err(CommandErr::Fault(ClerkErr::NoMethod)),
        Key::PoolHub(_) => Err(CommandErr::Fault(ClerkErr::NoMethod)),
        Key::Device(_) => Err(CommandErr::Fault(ClerkErr::NoMethod)),
    }
}

fn put_hub(
    alloc: Global,
    number: u32,
    body: &[u8],
    scratch: &mut Scratch,
) -> Result<Command, CommandErr>
    ensures exact { GivesWanted (put_read (key.Hub number) body.now) result }
    ensures sound { IfOk result (λ command. IsTrue (is_sound command)) }
{
    let document = object_of(alloc, body, scratch)?;
    let fields = document.root();
    let site = site_of(&fields)?;
    Ok(Command::PutHub(number, site))
}

fn put_subscriber(
    alloc: Global,
    number: u32,
    body: &[u8],
    scratch: &mut Scratch,
) -> Result<Command, CommandErr>
    ensures exact { GivesWanted (put_read (key.Subscriber number) body.now) result }
    ensures sound { IfOk result (λ command. IsTrue (is_sound command)) }
{
    let document = object_of(alloc, body, scratch)?;
    let fields = document.root();
    let subscriber = subscriber_of(&fields)?;
    Ok(Command::PutSubscriber(number, subscriber))
}

fn put_add_on(
    alloc: Global,
    owner: u32,
    number: u8,
    body: &[u8],
    scratch: &mut Scratch,
) -> Result<Command, CommandErr>
    requires { IsTrue (is_add_on_number number) }
    ensures exact { GivesWanted (put_read (key.AddOn owner number) body.now) result }
    ensures sound { IfOk result (λ command. IsTrue (is_sound command)) }
{
    let document = object_of(alloc, body, scratch)?;
    let fields = document.root();
    let settings = add_on_of(alloc, &fields)?;
    Ok(Command::PutAddOn(owner, number, settings))
}

fn put_modem(
    alloc: Global,
    mac: Mac,
    body: &[u8],
    scratch: &mut Scratch,
) -> Result<Command, CommandErr>
    ensures exact { GivesWanted (put_read (key.Modem mac) body.now) result }
    ensures sound { IfOk result (λ command. IsTrue (is_sound command)) }
{
    let document = object_of(alloc, body, scratch)?;
    let fields = document.root();
    let modem = modem_of(&fields)?;
    Ok(Command::PutModem(mac, modem))
}

fn put_class(
    alloc: Global,
    number: u32,
    body: &[u8],
    scratch: &mut Scratch,
) -> Result<Command, CommandErr>
    ensures exact { GivesWanted (put_read (key.Class number) body.now) result }
    ensures sound { IfOk result (λ command. IsTrue (is_sound command)) }
{
    let document = object_of(alloc, body, scratch)?;
    let fields = document.root();
    let class = class_of(alloc, &fields)?;
    Ok(Command::PutClass(number, class))
}

fn put_pool(
    alloc: Global,
    number: u32,
    body: &[u8],
    scratch: &mut Scratch,
) -> Result<Command, CommandErr>
    ensures exact { GivesWanted (put_read (key.Pool number) body.now) result }
    ensures sound { IfOk result (λ command. IsTrue (is_sound command)) }
{
    let document = object_of(alloc, body, scratch)?;
    let fields = document.root();
    let pool = pool_of(&fields)?;
    let hub = hub_of_pool(&fields)?;
    Ok(Command::PutPool(number, pool, hub))
}

fn put_device_pool(
    alloc: Global,
    number: u32,
    body: &[u8],
    scratch: &mut Scratch,
) -> Result<Command, CommandErr>
    ensures exact { GivesWanted (put_read (key.DevicePool number) body.now) result }
    ensures sound { IfOk result (λ command. IsTrue (is_sound command)) }
{
    let document = object_of(alloc, body, scratch)?;
    let fields = document.root();
    let pool = pool_of(&fields)?;
    Ok(Command::PutDevicePool(number, pool))
}
