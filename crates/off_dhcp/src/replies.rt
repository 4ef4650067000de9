ghost use Rattle.std.specs.Prelude.{◌≡◌, ◌≤◌, ◌+◌, ◌-◌, ◌*◌, ◌/◌, ◌==◌, ◌++◌, ◌⊎◌};
ghost use Rattle.std.specs.Prelude.{if◌then◌else◌, length, OnOk, IfOk};
ghost use Rattle.off_dhcp.specs.Reply.{four, head, option, nak_flags, confirmed};
ghost use Rattle.off_dhcp.specs.Reply.{nak_bytes, reply_bytes, mask, log_option};

use crate::faults::{MAGIC_COOKIE, MESSAGE_TYPE};
use crate::pieces::{finish, push_number, push_option, push_zeros};
use crate::relayed::push_relay;
use crate::{Message, Offer};
use off_base::{Bytes, Ip4, NoMemory};
use std::alloc::Global;

// Options of a reply (RFC 2132).
const SUBNET_MASK: u8 = 1;

const TIME_OFFSET: u8 = 2;

const ROUTER: u8 = 3;

const TIME_SERVER: u8 = 4;

const LOG_SERVER: u8 = 7;

const LEASE_TIME: u8 = 51;

const SERVER_IDENTIFIER: u8 = 54;

const RENEWAL_TIME: u8 = 58;

const REBINDING_TIME: u8 = 59;

const NAK: u8 = 6;

const ACK: u8 = 5;

const BROADCAST: u16 = 0x8000;

// As many bytes as each client takes (RFC 2131, section 2): a usual reply has fewer.
const ROOM: usize = 576;

/// A NAK from a server: it has no address and no name, and option 82 of the request.
#[tactic(auto, unfolding(crate::specs::Reply::nak_bytes))]
pub fn write_nak(alloc: Global, m: &Message<'_>, server: Ip4) -> Result<Bytes, NoMemory>
    ensures { IfOk result (λ bytes. bytes ≡ nak_bytes m.now server.0) }
{
    let none = Ip4(0);
    let mut out = write_head(alloc, m, flags_of_nak(m), none, none, none, &[])?;
    push_option(&mut out, MESSAGE_TYPE, &[NAK])?;
    push_number(&mut out, SERVER_IDENTIFIER, server.0)?;
    push_relay(&mut out, m)?;
    finish(&mut out)?;
    Ok(out)
}

/// An OFFER or an ACK: what the offer says, and option 82 of the request.
#[tactic(auto, unfolding(crate::specs::Reply::reply_bytes))]
pub fn write_reply(alloc: Global, m: &Message<'_>, r: &Offer) -> Result<Bytes, NoMemory>
    requires kind { (r.now.kind ≡ 2) ⊎ (r.now.kind ≡ 5) }
    requires prefix { (8 ≤ r.now.pool.prefix) × (r.now.pool.prefix ≤ 30) }
    ensures { IfOk result (λ bytes. bytes ≡ reply_bytes m.now r.now) }
{
    let server = r.site.server;
    let mut out = write_reply_head(alloc, m, r)?;
    push_option(&mut out, MESSAGE_TYPE, &[r.kind])?;
    push_number(&mut out, SERVER_IDENTIFIER, server.0)?;
    push_times(&mut out, r.site.lease)?;
    push_number(&mut out, SUBNET_MASK, mask_of(r.pool.prefix))?;
    push_number(&mut out, ROUTER, r.pool.router.0)?;
    push_number(&mut out, TIME_OFFSET, r.site.offset.cast_unsigned())?;
    push_number(&mut out, TIME_SERVER, server.0)?;
    push_log(&mut out, r.site.log)?;
    push_relay(&mut out, m)?;
    finish(&mut out)?;
    Ok(out)
}

// The fixed part of an OFFER or an ACK, with the request's flags.
fn write_reply_head(alloc: Global, m: &Message<'_>, r: &Offer) -> Result<Bytes, NoMemory>
    ensures { IfOk result (λ bytes. bytes ≡ head m.now m.now.flags (confirmed m.now r.now)
        r.now.yiaddr.0 r.now.site.server.0 r.now.name) }
{
    let ciaddr = confirmed_address(m, r.kind);
    write_head(
        alloc,
        m,
        m.flags(),
        ciaddr,
        r.yiaddr,
        r.site.server,
        &r.name,
    )
}

// The fixed part and the cookie, with a name in `file`.
#[tactic(auto, unfolding(crate::specs::Reply::head))]
fn write_head(
    alloc: Global,
    m: &Message<'_>,
    flags: u16,
    ciaddr: Ip4,
    yiaddr: Ip4,
    siaddr: Ip4,
    name: &[u8],
) -> Result<Bytes, NoMemory>
    requires { length name.now ≤ 128 }
    ensures { IfOk result (λ bytes. bytes ≡ head m.now flags ciaddr.0 yiaddr.0 siaddr.0 name.now) }
{
    let mut out = Bytes::with_capacity(alloc, ROOM)?;
    out.push_all(&[2, 1, 6, 0])?;
    out.push_all(&m.xid().to_be_bytes())?;
    out.push_all(&[0, 0])?;
    out.push_all(&flags.to_be_bytes())?;
    out.push_all(&ciaddr.0.to_be_bytes())?;
    out.push_all(&yiaddr.0.to_be_bytes())?;
    out.push_all(&siaddr.0.to_be_bytes())?;
    out.push_all(&m.giaddr().0.to_be_bytes())?;
    out.push_all(m.hardware())?;
    push_zeros(&mut out, 64)?;
    out.push_all(name)?;
    push_zeros(&mut out, 128 - name.len())?;
    out.push_all(&MAGIC_COOKIE)?;
    Ok(out)
}

// The request's flags, and behind a relay the broadcast bit.
fn flags_of_nak(m: &Message<'_>) -> u16
    ensures { result ≡ nak_flags m.now }
{
    if m.giaddr().0 == 0 {
        m.flags()
    } else {
        m.flags() | BROADCAST
    }
}

// The client's own address, which an ACK alone repeats.
fn confirmed_address(m: &Message<'_>, kind: u8) -> Ip4
    ensures { result.0 ≡ (if kind == 5 then m.now.ciaddr else 0) }
{
    if kind == ACK { m.ciaddr() } else { Ip4(0) }
}

// How long the lease lasts, and when the client is to renew and to rebind it.
fn push_times(out: &mut Bytes, lease: u32) -> Result<(), NoMemory>
    ensures { OnOk result (out.new ≡ out.old ++ option 51 (four lease)
        ++ option 58 (four (lease / 2)) ++ option 59 (four (7 * lease / 8))) }
{
    push_number(out, LEASE_TIME, lease)?;
    push_number(out, RENEWAL_TIME, lease / 2)?;
    push_number(out, REBINDING_TIME, seven_eighths(lease))
}

fn seven_eighths(lease: u32) -> u32
    ensures { result ≡ 7 * lease / 8 }
{
    (7 * u64::from(lease) / 8) as u32
}

fn mask_of(prefix: u8) -> u32
    requires { (8 ≤ prefix) × (prefix ≤ 30) }
    ensures { result ≡ mask prefix }
{
    u32::MAX - ((1 << (32 - prefix)) - 1)
}

// The option of the log server, where there is one.
fn push_log(out: &mut Bytes, log: Ip4) -> Result<(), NoMemory>
    ensures { OnOk result (out.new ≡ out.old ++ log_option log.0) }
{
    if log.0 == 0 {
        return Ok(());
    }
    push_number(out, LOG_SERVER, log.0)
}
