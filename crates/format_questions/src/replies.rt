ghost use Rattle.std.specs.Prelude.{◌≡◌, ◌≤◌, ◌⊎◌, IfOk};

use crate::messages::show_fault;
use crate::tables::word;
use off_base::{Bytes, Ip4, NoMemory, Secret};
use off_defs::{LEAST_PREFIX, MOST_PREFIX, Pool, Site};
use off_dhcp::{Message, Offer, write_nak, write_reply};
use script_words::{Line, Page, Unread};
use std::alloc::Global;

fn read_name(bytes: &Bytes) -> Result<[u8; 32], Unread> {
    let mut name = [0; 32];
    if bytes.len() != 32 {
        return Err(Unread::Words);
    }
    name.copy_from_slice(bytes.as_slice());
    Ok(name)
}

// The kind, 2 or 5, and the prefix, 8 to 30.
fn read_kind(line: &mut Line<'_>) -> Result<u8, Unread>
    ensures { IfOk result (λ kind. (kind ≡ 2) ⊎ (kind ≡ 5)) }
{
    match line.word() {
        b"offer" => Ok(2),
        b"ack" => Ok(5),
        _ => Err(Unread::Words),
    }
}

fn read_prefix(line: &mut Line<'_>) -> Result<u8, Unread>
    ensures { IfOk result (λ prefix. (8 ≤ prefix) × (prefix ≤ 30)) }
{
    let prefix = line.byte()?;
    if prefix < LEAST_PREFIX {
        return Err(Unread::Words);
    }
    if prefix > MOST_PREFIX {
        return Err(Unread::Words);
    }
    Ok(prefix)
}

// The server, the offset, the time of a lease, and where logs are sent. The secret isn't told.
fn read_site(line: &mut Line<'_>) -> Result<Site, Unread> {
    let server = line.address()?;
    let offset = line.signed()?;
    let lease = line.count()?;
    let log = line.address()?;
    let Some(secret) = Secret::read(b"") else {
        return Err(Unread::Words);
    };
    Ok(Site {
        server,
        secret,
        offset,
        lease,
        log,
    })
}

// The prefix and the router. The other addresses aren't told.
fn read_pool(line: &mut Line<'_>) -> Result<Pool, Unread>
    ensures { IfOk result (λ pool. (8 ≤ pool.prefix) × (pool.prefix ≤ 30)) }
{
    let prefix = read_prefix(line)?;
    Ok(Pool {
        first: Ip4(0),
        last: Ip4(0),
        prefix,
        router: line.address()?,
        relay: Ip4(0),
    })
}

// The kind, the client's address, what the site and the pool say, and the name in hexadecimal.
fn read_offer(alloc: Global, line: &mut Line<'_>) -> Result<Offer, Unread>
    ensures kind { IfOk result (λ offer. (offer.kind ≡ 2) ⊎ (offer.kind ≡ 5)) }
    ensures prefix { IfOk result (λ offer. (8 ≤ offer.pool.prefix) × (offer.pool.prefix ≤ 30)) }
{
    let kind = read_kind(line)?;
    let yiaddr = line.address()?;
    let site = read_site(line)?;
    let pool = read_pool(line)?;
    let name = word(alloc, line)?;
    let name = read_name(&name)?;
    Ok(Offer {
        kind,
        yiaddr,
        site,
        pool,
        name,
    })
}

fn show_reply(page: &mut Page, reply: Result<Bytes, NoMemory>) -> Result<(), Unread> {
    let reply = reply?;
    page.number(reply.len() as u64)?;
    page.text(" ")?;
    Ok(page.hex(reply.as_slice())?)
}

/// `offer ack 10.64.0.10 .. 0101..`: the reply to a message.
pub fn offer(alloc: Global, page: &mut Page, line: Line<'_>) -> Result<(), Unread> {
    let mut line = line;
    let offer = read_offer(alloc, &mut line)?;
    let bytes = line.bytes(alloc)?;
    match Message::read(bytes.as_slice()) {
        Ok(message) => show_reply(page, write_reply(alloc, &message, &offer)),
        Err(fault) => Ok(show_fault(page, fault)?),
    }
}

/// `nak 10.0.0.2 0101..`: the refusal of a message.
pub fn nak(alloc: Global, page: &mut Page, line: Line<'_>) -> Result<(), Unread> {
    let mut line = line;
    let server = line.address()?;
    let bytes = line.bytes(alloc)?;
    match Message::read(bytes.as_slice()) {
        Ok(message) => show_reply(page, write_nak(alloc, &message, server)),
        Err(fault) => Ok(show_fault(page, fault)?),
    }
}
