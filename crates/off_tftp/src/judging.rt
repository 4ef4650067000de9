//! A peer's requests against what was read for it.

ghost use Rattle.std.specs.Prelude.{◌≡◌, true, is_some, IfSome};
ghost use Rattle.off_account_rules.specs.Rows.{passes};
ghost use Rattle.off_account_rules.specs.Good.{is_mac};
ghost use Rattle.off_lease_rules.specs.Free.{has_ended};
ghost use Rattle.off_transfer_rules.specs.Requests.{file_owner};
ghost use Rattle.off_transfer_rules.specs.View.{bound_to, is_own_name, is_of_subscriber, agrees};
ghost use Rattle.off_tftp.specs.Agreements.{stands_for, IsAgreementOf};
ghost use Rattle.off_tftp.specs.Seen.{view_of, held_by, names_file};

use crate::agreements::Agreement;
use crate::gathering::Seen;
use crate::live::Live;
use off_base::{Ip4, Mac, Moment};
use off_defs::{Hold, Lease, Modem, Site};
use off_files::file_name;
use off_mic::HmacKey;
use std::cmp::Ordering;

/// What of the tables agrees with a transfer, by what was seen, or nothing where they don't. The
/// name of its modem's file is computed where the rows agree.
pub(crate) fn agreement_of(seen: &Seen, now: Moment, ip: Ip4, live: &Live) -> Option<Agreement>
    ensures agrees { is_some result ≡ agrees (view_of seen.now) now.0 ip live.now.name
        (file_owner live.now.modem live.now.subscriber) }
    ensures right { IfSome result (IsAgreementOf (view_of seen.now) ip) }
    ensures stands { IfSome result (λ a. stands_for now.0 ip live.now a ≡ true) }
{
    if !is_held_by(now, seen.lease, live.modem()) {
        return None;
    }
    if !is_of_subscriber(&seen.modem, live.subscriber()) {
        return None;
    }
    let Some(lease) = seen.lease else { return None };
    let Some(site) = &seen.site else { return None };
    let name = file_name(&HmacKey::of(&site.secret), live.modem(), ip);
    if live.name() != name.as_slice() {
        return None;
    }
    Some(Agreement {
        ip,
        name,
        modem: live.modem(),
        subscriber: live.subscriber(),
        until: lease.expiry,
    })
}

/// Whether the name is that of the file of the modem to which the address is bound.
pub(crate) fn names_file(seen: &Seen, now: Moment, ip: Ip4, name: &[u8]) -> bool
    ensures { result ≡ names_file now.0 ip name.now (view_of seen.now) }
{
    match holder(now, seen.lease) {
        Some(mac) => is_name_at(&seen.site, name, mac, ip),
        None => false,
    }
}

/// The modem to which a lease binds.
pub(crate) fn holder(now: Moment, lease: Option<Lease>) -> Option<Mac>
    ensures { result ≡ held_by now.0 lease }
{
    if has_ended(now, lease) {
        return None;
    }
    match lease {
        Some(lease) => bound_to(lease.hold),
        None => None,
    }
}

fn has_ended(now: Moment, lease: Option<Lease>) -> bool
    ensures { result ≡ has_ended now.0 lease }
{
    match lease {
        Some(lease) => lease.expiry.0 <= now.0,
        None => true,
    }
}

fn bound_to(hold: Hold) -> Option<Mac>
    ensures { result ≡ bound_to hold }
{
    match hold {
        Hold::Bound(mac) => Some(mac),
        Hold::Offered(_) | Hold::Declined => None,
    }
}

fn is_held_by(now: Moment, lease: Option<Lease>, mac: Mac) -> bool
    ensures { result ≡ passes (is_mac mac) (held_by now.0 lease) }
{
    match holder(now, lease) {
        Some(other) => mac.cmp(&other) == Ordering::Equal,
        None => false,
    }
}

fn is_of_subscriber(modem: &Option<Modem>, subscriber: u32) -> bool
    ensures { result ≡ passes (is_of_subscriber subscriber) modem.now }
{
    match modem {
        Some(modem) => modem.subscriber == subscriber,
        None => false,
    }
}

fn is_name_at(site: &Option<Site>, name: &[u8], mac: Mac, ip: Ip4) -> bool
    ensures { result ≡ passes (is_own_name name.now mac ip) site.now }
{
    match site {
        Some(site) => is_own_name(site, name, mac, ip),
        None => false,
    }
}

/// Whether the name is that of a modem's file at an address.
pub(crate) fn is_own_name(site: &Site, name: &[u8], mac: Mac, ip: Ip4) -> bool
    ensures { result ≡ is_own_name name.now mac ip site.now }
{
    name == file_name(&HmacKey::of(&site.secret), mac, ip).as_slice()
}
