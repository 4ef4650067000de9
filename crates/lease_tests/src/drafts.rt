//! Messages of modems over random tables: what a modem may send by the rows, with slips.

use crate::free::{World, address, number_of, relay};
use crate::lease_rows::MODEM;
use off_asking::Named;
use off_base::{Bytes, Ip4, Mac, NoMemory};
use off_outside::KeepErr;
use plain_leases::{held_in, hub_in, lease_in, site_in};
use std::alloc::Global;

// Option 60 of a modem (`docsis3.1:`), of something else, and of one that says no version.
const CABLE: &[u8] = &[60, 10, 100, 111, 99, 115, 105, 115, 51, 46, 49, 58];

const OTHER: &[u8] = &[60, 4, 80, 88, 69, 67];

const SHORT: &[u8] = &[60, 6, 100, 111, 99, 115, 105, 115];

// Option 43 with the serial number SN01, in two pieces with a pad between them; with SN02, behind
// which another one is passed over; with a part that passes its end; and with the end in front.
const SERIAL: &[u8] = &[43, 5, 2, 3, 69, 67, 77, 0, 43, 6, 4, 4, 83, 78, 48, 49];

const ANOTHER: &[u8] = &[43, 12, 4, 4, 83, 78, 48, 50, 4, 4, 83, 78, 48, 49];

const CUT: &[u8] = &[43, 8, 4, 4, 83, 78, 48, 49, 2, 3];

const ENDED: &[u8] = &[43, 8, 0, 255, 4, 4, 83, 78, 48, 50];

// What the relay says of the modem in option 82 (RFC 3046).
#[derive(Clone, Copy)]
pub(crate) enum Remote {
    Absent,
    /// Six bytes: the modem's own address, or another one.
    Own,
    Other,
    /// Five bytes.
    Five,
    /// A part passes its end.
    Cut,
}

/// A message.
#[derive(Clone, Copy)]
pub(crate) struct Draft {
    pub(crate) kind: u8,
    pub(crate) mac: Mac,
    pub(crate) ciaddr: Ip4,
    pub(crate) giaddr: Ip4,
    pub(crate) address: Named,
    pub(crate) server: Named,
    pub(crate) class: &'static [u8],
    pub(crate) vendor: &'static [u8],
    pub(crate) remote: Remote,
}

/// What a modem sends.
#[derive(Clone, Copy)]
pub(crate) enum Wish {
    Discover,
    Select,
    Reboot,
    /// It renews its lease with the server, or by any relay.
    Renew,
    Rebind,
    Decline,
    Release,
}

/// The modems, of which the first is always the operator's.
pub(crate) fn modem(number: u32) -> Mac {
    if number == 0 {
        return MODEM;
    }
    Mac([2, 0, 0, 0, 0, number.to_be_bytes()[3]])
}

/// A modem's message about an address of its own.
pub(crate) fn draft_of(wish: Wish, mac: Mac, own: Ip4, giaddr: Ip4, server: Ip4) -> Draft {
    let mut draft = Draft {
        kind: 3,
        mac,
        ciaddr: Ip4(0),
        giaddr,
        address: Named::At(own),
        server: Named::At(server),
        class: CABLE,
        vendor: SERIAL,
        remote: Remote::Own,
    };
    match wish {
        Wish::Discover => {
            draft.kind = 1;
            draft.server = Named::Absent;
        }
        Wish::Select => {}
        Wish::Reboot => draft.server = Named::Absent,
        Wish::Renew => {
            renews(&mut draft, own);
            draft.giaddr = Ip4(0);
        }
        Wish::Rebind => renews(&mut draft, own),
        Wish::Decline => draft.kind = 4,
        Wish::Release => {
            renews(&mut draft, own);
            draft.kind = 7;
            draft.server = Named::At(server);
        }
    }
    draft
}

fn renews(draft: &mut Draft, own: Ip4) {
    draft.ciaddr = own;
    draft.address = Named::Absent;
    draft.server = Named::Absent;
}

/// A message of one of six modems, mostly as the rows would have it. Now and then the moment is
/// that at which the lease of its address ends.
pub(crate) fn some_draft(alloc: Global, world: &mut World) -> Result<Draft, KeepErr> {
    let mac = modem(world.some(6));
    let own = match held_in(alloc, &mut world.keeper, mac)? {
        Some(own) => own,
        None => address(world.some(3), world.some(8)),
    };
    if world.some(6) == 0 {
        come_to_the_end(alloc, world, own)?;
    }
    let number = match number_of(alloc, &mut world.keeper, own)? {
        Some(number) => number,
        None => world.some(3).wrapping_add(1),
    };
    let hub = hub_in(alloc, &mut world.keeper, number)?;
    let server = match site_in(alloc, &mut world.keeper, hub)? {
        Some(site) => site.server,
        None => Ip4(7),
    };
    let mut draft = draft_of(some_wish(world.some(11)), mac, own, relay(number), server);
    slip(&mut draft, world);
    slip(&mut draft, world);
    Ok(draft)
}

// The moment is that at which the lease of an address ends.
fn come_to_the_end(alloc: Global, world: &mut World, address: Ip4) -> Result<(), KeepErr> {
    if let Some(lease) = lease_in(alloc, &mut world.keeper, address)? {
        world.now = lease.expiry;
        world.runs.pass(lease.expiry);
    }
    Ok(())
}

fn some_wish(number: u32) -> Wish {
    match number {
        0 => Wish::Select,
        1 => Wish::Reboot,
        2 => Wish::Renew,
        3 => Wish::Rebind,
        4 => Wish::Decline,
        5 => Wish::Release,
        6 => Wish::Select,
        _ => Wish::Discover,
    }
}

// Something is otherwise, or nothing.
fn slip(draft: &mut Draft, world: &mut World) {
    let any = address(world.some(3), world.some(8));
    match world.some(36) {
        0 => draft.kind = 8,
        1 => draft.kind = 3,
        2 => draft.address = Named::Malformed,
        3 => draft.address = Named::Absent,
        4 | 5 => draft.address = Named::At(any),
        6 => draft.server = Named::Malformed,
        7 => draft.server = Named::Absent,
        8 => draft.server = Named::At(any),
        9 => draft.ciaddr = any,
        10 => draft.ciaddr = Ip4(0),
        11 => draft.giaddr = Ip4(0),
        12 => draft.giaddr = relay(world.some(5)),
        13 => draft.mac = modem(9),
        14 => draft.class = &[],
        15 => draft.class = OTHER,
        16 => draft.class = SHORT,
        17 => draft.vendor = &[],
        18 => draft.vendor = ANOTHER,
        19 => draft.vendor = CUT,
        20 => draft.vendor = ENDED,
        21 => draft.remote = Remote::Absent,
        22 => draft.remote = Remote::Other,
        23 => draft.remote = Remote::Five,
        24 => draft.remote = Remote::Cut,
        _ => {}
    }
}

/// The bytes of a message.
pub(crate) fn written(alloc: Global, draft: &Draft) -> Result<Bytes, NoMemory> {
    let mut bytes = Bytes::new(alloc);
    bytes.push_all(&[1, 1, 6, 0, 0x11, 0x22, 0x33, 0x44, 0, 0, 0, 0])?;
    bytes.push_all(&draft.ciaddr.0.to_be_bytes())?;
    bytes.push_all(&[0; 8])?;
    bytes.push_all(&draft.giaddr.0.to_be_bytes())?;
    bytes.push_all(&draft.mac.0)?;
    bytes.push_all(&[0; 202])?;
    bytes.push_all(&[99, 130, 83, 99, 53, 1, draft.kind])?;
    push_named(&mut bytes, 50, draft.address)?;
    push_named(&mut bytes, 54, draft.server)?;
    bytes.push_all(draft.class)?;
    bytes.push_all(draft.vendor)?;
    push_remote(&mut bytes, draft)?;
    bytes.push_all(&[255])?;
    Ok(bytes)
}

fn push_named(bytes: &mut Bytes, code: u8, named: Named) -> Result<(), NoMemory> {
    match named {
        Named::Absent => Ok(()),
        Named::Malformed => bytes.push_all(&[code, 3, 10, 64, 1]),
        Named::At(address) => {
            bytes.push_all(&[code, 4])?;
            bytes.push_all(&address.0.to_be_bytes())
        }
    }
}

fn push_remote(bytes: &mut Bytes, draft: &Draft) -> Result<(), NoMemory> {
    match draft.remote {
        Remote::Absent => Ok(()),
        Remote::Own => {
            bytes.push_all(&[82, 14, 1, 4, 128, 0, 0, 1, 2, 6])?;
            bytes.push_all(&draft.mac.0)
        }
        Remote::Other => bytes.push_all(&[82, 10, 0, 0, 2, 6, 2, 0, 0, 0, 0, 77]),
        Remote::Five => bytes.push_all(&[82, 7, 2, 5, 2, 0, 0, 0, 0]),
        Remote::Cut => bytes.push_all(&[82, 9, 2, 6, 2, 0, 0, 0, 0, 1, 2]),
    }
}
