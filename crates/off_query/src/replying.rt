//! The reply to a query, byte for byte, to the relay's server port.

ghost use Rattle.std.specs.Prelude.{◌≡◌, ◌-◌, min, option_and_then, IfOk};
ghost use Rattle.off_query_rules.specs.Answers.{query_head, plain_bytes, active_bytes};
ghost use Rattle.off_query_rules.specs.Answers.{to_relay, active_for, reply_by_word};

use crate::Query;
use crate::judging::bound_mac;
use off_base::{Bytes, Ip4, Mac, Moment, NoMemory, Peer};
use off_defs::{Lease, Sent, Service, Site};
use off_dhcp::{MAGIC_COOKIE, finish, push_number, push_option, push_zeros};
use off_query_rules::{QueryCase, QueryWord};
use std::alloc::Global;

const SERVER_PORT: u16 = 67;

const MESSAGE_TYPE: u8 = 53;

const LEASE_TIME: u8 = 51;

const SERVER_IDENTIFIER: u8 = 54;

// The kinds of replies (RFC 4388, section 6.1).
const UNASSIGNED: u8 = 11;

const UNKNOWN: u8 = 12;

const ACTIVE: u8 = 13;

/// What is sent for a query that has a site, by its word.
pub(crate) fn reply_by_word(
    alloc: Global,
    now: Moment,
    q: &Query<'_>,
    case: &QueryCase,
    site: &Site,
    word: QueryWord,
) -> Result<Option<Sent>, NoMemory>
    ensures { IfOk result (λ reply. reply ≡ reply_by_word now.0 q.now case.now site.now word) }
{
    match word {
        QueryWord::Active => active(alloc, now, q, case, site),
        QueryWord::Unassigned => Ok(Some(plain(alloc, UNASSIGNED, q, site)?)),
        QueryWord::Unknown => Ok(Some(plain(alloc, UNKNOWN, q, site)?)),
        QueryWord::Relay | QueryWord::Form => Ok(None),
    }
}

fn plain(alloc: Global, kind: u8, q: &Query<'_>, site: &Site) -> Result<Sent, NoMemory>
    ensures { IfOk result (λ sent. sent ≡ to_relay q.now (plain_bytes kind q.now site.now.server)) }
{
    let bytes = write_plain(alloc, kind, q, site.server)?;
    Ok(to_relay(q, bytes))
}

fn active(
    alloc: Global,
    now: Moment,
    q: &Query<'_>,
    case: &QueryCase,
    site: &Site,
) -> Result<Option<Sent>, NoMemory>
    ensures { IfOk result (λ reply. reply ≡ option_and_then
        (λ address. option_and_then (active_for now.0 q.now site.now address) case.now.lease)
        case.now.address) }
{
    let Some(address) = case.address else {
        return Ok(None);
    };
    let Some(lease) = case.lease else {
        return Ok(None);
    };
    active_for(alloc, now, q, site, address, lease)
}

fn active_for(
    alloc: Global,
    now: Moment,
    q: &Query<'_>,
    site: &Site,
    address: Ip4,
    lease: Lease,
) -> Result<Option<Sent>, NoMemory>
    ensures { IfOk result (λ reply. reply ≡ active_for now.0 q.now site.now address lease) }
{
    let Some(mac) = bound_mac(lease.hold) else {
        return Ok(None);
    };
    let left = seconds_left(now, lease.expiry);
    let bytes = write_active(alloc, left, q, site.server, address, mac)?;
    Ok(Some(to_relay(q, bytes)))
}

// The seconds until a moment, as far as four bytes say them.
fn seconds_left(now: Moment, expiry: Moment) -> u32
    ensures { result ≡ min (expiry.0 - now.0) 4294967295 }
{
    expiry.0.saturating_sub(now.0).min(u64::from(u32::MAX)) as u32
}

fn to_relay(q: &Query<'_>, bytes: Bytes) -> Sent
    ensures { result ≡ to_relay q.now bytes }
{
    Sent::Datagram {
        service: Service::Dhcp,
        to: Peer {
            ip: q.giaddr(),
            port: SERVER_PORT,
        },
        bytes,
    }
}

// What the query itself says of the client, and that nothing more is known.
#[tactic(auto, unfolding(off_query_rules::specs::Answers::plain_bytes))]
fn write_plain(alloc: Global, kind: u8, q: &Query<'_>, server: Ip4) -> Result<Bytes, NoMemory>
    ensures { IfOk result (λ bytes. bytes ≡ plain_bytes kind q.now server) }
{
    let own = q.bytes();
    let mut out = write_head(alloc, q, own[1], own[2], &own[12..16], q.hardware())?;
    push_option(&mut out, MESSAGE_TYPE, &[kind])?;
    push_number(&mut out, SERVER_IDENTIFIER, server.0)?;
    finish(&mut out)?;
    Ok(out)
}

// The client that has the address, and for how long.
#[tactic(auto, unfolding(off_query_rules::specs::Answers::active_bytes))]
fn write_active(
    alloc: Global,
    left: u32,
    q: &Query<'_>,
    server: Ip4,
    address: Ip4,
    mac: Mac,
) -> Result<Bytes, NoMemory>
    ensures { IfOk result (λ bytes. bytes ≡ active_bytes left q.now server address mac) }
{
    let mut hardware = Bytes::new(alloc);
    hardware.push_all(&mac.0)?;
    push_zeros(&mut hardware, 10)?;
    let mut out = write_head(
        alloc,
        q,
        1,
        6,
        &address.0.to_be_bytes(),
        hardware.as_slice(),
    )?;
    push_option(&mut out, MESSAGE_TYPE, &[ACTIVE])?;
    push_number(&mut out, SERVER_IDENTIFIER, server.0)?;
    push_number(&mut out, LEASE_TIME, left)?;
    finish(&mut out)?;
    Ok(out)
}

// The fixed part and the cookie: the transaction, the flags and the relay are the query's.
#[tactic(auto, unfolding(off_query_rules::specs::Answers::query_head))]
fn write_head(
    alloc: Global,
    q: &Query<'_>,
    htype: u8,
    hlen: u8,
    ciaddr: &[u8],
    hardware: &[u8],
) -> Result<Bytes, NoMemory>
    ensures { IfOk result (λ bytes. bytes
        ≡ query_head q.now htype hlen ciaddr.now hardware.now) }
{
    let own = q.bytes();
    let mut out = Bytes::new(alloc);
    out.push_all(&[2, htype, hlen, 0])?;
    out.push_all(&own[4..8])?;
    out.push_all(&[0, 0])?;
    out.push_all(&own[10..12])?;
    out.push_all(ciaddr)?;
    push_zeros(&mut out, 8)?;
    out.push_all(&own[24..28])?;
    out.push_all(hardware)?;
    push_zeros(&mut out, 192)?;
    out.push_all(&MAGIC_COOKIE)?;
    Ok(out)
}
