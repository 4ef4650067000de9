//! What a client's DHCP message does, by plain reading of the rows: as `off_lease_rules` and
//! `off_asking` define it, sentence by sentence, and with none of what an office keeps of them.

ghost use Rattle.std.specs.Prelude.{◌≡◌, ◌⊎◌};

use crate::reading::{choice_in, has, held_in, hub_in, lease_in, modem_in, pools_in, site_in};
use crate::saying::{Said, at, said_in};
use off_asking::{Form, Named};
use off_base::{Bytes, Ip4, Items, Mac, Moment, NoMemory, Peer};
use off_defs::{Hold, Key, Lease, Pool, Row, Sent, Service, Site, Write, Writes};
use off_dhcp::{Message, Offer, write_nak, write_reply};
use off_files::file_name;
use off_keepmem::MemKeeper;
use off_lease_rules::{Case, DhcpWord, LeaseStep};
use off_mic::HmacKey;
use off_outside::KeepErr;
use std::alloc::Global;

/// What a message does at a moment: what it writes, its reply and its word.
pub fn plain_answer(
    alloc: Global,
    keeper: &mut MemKeeper,
    now: Moment,
    m: &Message<'_>,
) -> Result<LeaseStep, KeepErr> {
    let judged = judge(alloc, keeper, now, m)?;
    Ok(match refusal(&judged) {
        Some(word) => refuse(alloc, m, &judged.case, word)?,
        None => accept(alloc, now, m, &judged)?,
    })
}

// ---- the rows by which a message is judged

// What the message says, the rows by which it's judged, the address that it is about, and that
// address's lease.
#[derive(Drop)]
struct Judged {
    said: Said,
    case: Case,
    chosen: Option<Ip4>,
    lease: Option<Lease>,
}

fn judge(
    alloc: Global,
    keeper: &mut MemKeeper,
    now: Moment,
    m: &Message<'_>,
) -> Result<Judged, KeepErr> {
    let said = said_in(alloc, m)?;
    let case = case_of(alloc, keeper, &said)?;
    let chosen = chosen(alloc, keeper, now, &said, &case)?;
    let lease = match chosen {
        Some(address) => lease_in(alloc, keeper, address)?,
        None => None,
    };
    Ok(Judged {
        said,
        case,
        chosen,
        lease,
    })
}

// The hub of a message is that of its pool; for an address that is given back, that of the pool
// with the address.
fn case_of(alloc: Global, keeper: &mut MemKeeper, said: &Said) -> Result<Case, KeepErr> {
    let pools = pools_in(alloc, keeper)?;
    let serving = serving(&pools, said);
    let home = if said.discovers || said.requests {
        serving
    } else {
        around(&pools, said.claimed())
    };
    let held = held_in(alloc, keeper, said.client)?;
    let site = site_of(alloc, keeper, home)?;
    let modem = modem_in(alloc, keeper, said.client)?;
    Ok(Case {
        site,
        pool: match serving {
            Some((_number, pool)) => Some(pool),
            None => None,
        },
        modem,
        held,
    })
}

fn serving(pools: &Items<(u32, Pool)>, said: &Said) -> Option<(u32, Pool)> {
    for place in 0..pools.len() {
        let (number, pool) = *pools.get(place);
        if serves(said, &pool) {
            return Some((number, pool));
        }
    }
    None
}

// The pool of a message is that of its relay. Without a relay a client can only renew, and its pool
// has the address that it renews.
fn serves(said: &Said, pool: &Pool) -> bool {
    if said.giaddr.0 == 0 {
        said.requests && matches!(said.form, Form::Renewing(_)) && has(pool, said.ciaddr)
    } else {
        pool.relay.0 == said.giaddr.0
    }
}

fn around(pools: &Items<(u32, Pool)>, address: Option<Ip4>) -> Option<(u32, Pool)> {
    let address = address?;
    for place in 0..pools.len() {
        let (number, pool) = *pools.get(place);
        if has(&pool, address) {
            return Some((number, pool));
        }
    }
    None
}

fn site_of(
    alloc: Global,
    keeper: &mut MemKeeper,
    pool: Option<(u32, Pool)>,
) -> Result<Option<Site>, KeepErr> {
    match pool {
        Some((number, _pool)) => {
            let hub = hub_in(alloc, keeper, number)?;
            site_in(alloc, keeper, hub)
        }
        None => Ok(None),
    }
}

// The address that a message is about: for a DISCOVER it is chosen.
fn chosen(
    alloc: Global,
    keeper: &mut MemKeeper,
    now: Moment,
    said: &Said,
    case: &Case,
) -> Result<Option<Ip4>, KeepErr> {
    if !said.discovers {
        return Ok(said.claimed());
    }
    match &case.pool {
        Some(pool) => choice_in(alloc, keeper, now, pool, case.held, at(said.address)),
        None => Ok(None),
    }
}

// ---- when a message is refused

// The word of the first rule that is broken.
fn refusal(judged: &Judged) -> Option<DhcpWord> {
    match early_refusal(&judged.said, &judged.case) {
        Some(word) => Some(word),
        None => late_refusal(&judged.said, &judged.case, judged.chosen),
    }
}

fn early_refusal(said: &Said, case: &Case) -> Option<DhcpWord> {
    let asks = said.discovers || said.requests;
    let gives_back = said.declines || said.releases;
    let is_cut = (asks && said.serial.is_cut) || said.remote.is_cut;
    // A client that asks says that it's a modem; one that has an address may leave that out.
    let is_no_modem = (said.discovers && said.is_modem != Some(true))
        || (said.requests && said.is_modem == Some(false));
    first_of(&[
        (DhcpWord::NotServed, !asks && !gives_back),
        (
            DhcpWord::RequestForm,
            said.requests && said.form == Form::NoForm,
        ),
        (DhcpWord::PartCut, is_cut),
        (DhcpWord::RelayMismatch, relays_another(said)),
        (DhcpWord::NotAModem, is_no_modem),
        (DhcpWord::NoRelayPool, asks && case.pool.is_none()),
        (DhcpWord::NoSite, asks && case.site.is_none()),
        (DhcpWord::UnknownModem, asks && case.modem.is_none()),
        (
            DhcpWord::SerialMismatch,
            asks && has_other_serial(said, case),
        ),
        (DhcpWord::OtherServer, is_for_another(said, case)),
    ])
}

fn late_refusal(said: &Said, case: &Case, chosen: Option<Ip4>) -> Option<DhcpWord> {
    let gives_back = said.declines || said.releases;
    let selects = matches!(said.form, Form::Selecting(_));
    let claimed = said.claimed();
    let is_own = claimed.is_some() && claimed == case.held;
    // Who selects an offer that was never made is told that the address isn't its own; who has one
    // of which the office knows nothing gets no answer.
    let lacks_record = (said.requests && !selects && case.held.is_none())
        || (gives_back && !is_own);
    let is_wrong = said.requests && !(is_own && is_within(case.pool, claimed));
    first_of(&[
        (DhcpWord::PoolFull, said.discovers && chosen.is_none()),
        (DhcpWord::NoRecord, lacks_record),
        (DhcpWord::NotYourAddress, is_wrong),
    ])
}

fn first_of(rules: &[(DhcpWord, bool)]) -> Option<DhcpWord> {
    for rule in rules {
        if rule.1 {
            return Some(rule.0);
        }
    }
    None
}

// A remote identifier of six bytes is the hardware address of the client.
fn relays_another(said: &Said) -> bool {
    match &said.remote.value {
        Some(remote) => remote.len() == 6 && remote.as_slice() != said.client.0.as_slice(),
        None => false,
    }
}

// A modem may say another serial number than its row, where both have one.
fn has_other_serial(said: &Said, case: &Case) -> bool {
    let Some(modem) = &case.modem else {
        return false;
    };
    let label = modem.serial.as_slice();
    match &said.serial.value {
        Some(serial) => !label.is_empty() && serial.as_slice() != label,
        None => false,
    }
}

// A message that names a server is for that one alone; a REQUEST does in one of its forms.
fn is_for_another(said: &Said, case: &Case) -> bool {
    let selects = said.requests && matches!(said.form, Form::Selecting(_));
    let names_one = selects || said.declines || said.releases;
    let Some(site) = &case.site else {
        return false;
    };
    match at(said.server) {
        Some(server) => names_one && server.0 != site.server.0,
        None => false,
    }
}

fn is_within(pool: Option<Pool>, address: Option<Ip4>) -> bool {
    let Some(pool) = pool else { return false };
    match address {
        Some(address) => has(&pool, address),
        None => false,
    }
}

// A message that is refused changes nothing, and has no reply but for one word.
fn refuse(
    alloc: Global,
    m: &Message<'_>,
    case: &Case,
    word: DhcpWord,
) -> Result<LeaseStep, NoMemory> {
    let mut step = LeaseStep {
        writes: Writes::new(alloc),
        reply: None,
        word,
    };
    if word == DhcpWord::NotYourAddress {
        if let Some(site) = &case.site {
            let bytes = write_nak(alloc, m, site.server)?;
            step.reply = Some(sent(m, Ip4(0xffff_ffff), bytes));
        }
    }
    Ok(step)
}

// ---- what a message does that no rule refuses

fn accept(
    alloc: Global,
    now: Moment,
    m: &Message<'_>,
    judged: &Judged,
) -> Result<LeaseStep, NoMemory> {
    let mut step = LeaseStep {
        writes: writes_of(alloc, now, judged)?,
        reply: None,
        word: word_of(&judged.said),
    };
    step.reply = match step.word {
        DhcpWord::Offer => granted(alloc, 2, m, judged)?,
        DhcpWord::Ack => granted(alloc, 5, m, judged)?,
        _ => None,
    };
    Ok(step)
}

fn word_of(said: &Said) -> DhcpWord {
    if said.discovers {
        DhcpWord::Offer
    } else if said.requests {
        DhcpWord::Ack
    } else if said.declines {
        DhcpWord::Declined
    } else {
        DhcpWord::Released
    }
}

// ---- what is written

// An address is bound for as long as the site's leases last. A declined one rests for ten minutes,
// and a released one is free at once.
fn writes_of(alloc: Global, now: Moment, judged: &Judged) -> Result<Writes, NoMemory> {
    let mut writes = Writes::new(alloc);
    let client = judged.said.client;
    let Some(address) = judged.chosen else {
        return Ok(writes);
    };
    if judged.said.discovers {
        push_offer(&mut writes, now, judged, address)?;
    } else if judged.said.requests {
        if let Some(site) = &judged.case.site {
            writes.push(lease_put(address, Hold::Bound(client), site.lease, now))?;
        }
    } else if judged.said.declines {
        writes.push(lease_put(address, Hold::Declined, 600, now))?;
        writes.push(Write::Drop(Key::Held(client)))?;
    } else {
        writes.push(Write::Drop(Key::Lease(address)))?;
        writes.push(Write::Drop(Key::Held(client)))?;
    }
    Ok(writes)
}

// A lease that ends so many seconds after now.
fn lease_put(address: Ip4, hold: Hold, seconds: u32, now: Moment) -> Write {
    let expiry = Moment(now.0.saturating_add(u64::from(seconds)));
    Write::Put(Key::Lease(address), Row::Lease(Lease { hold, expiry }))
}

// An address is offered for two minutes. The client gives up the address that it held before, if
// another, and the owner of one that had ended loses it. Where the client is bound to the address
// already, all stays.
fn push_offer(
    writes: &mut Writes,
    now: Moment,
    judged: &Judged,
    address: Ip4,
) -> Result<(), NoMemory> {
    let client = judged.said.client;
    if is_live_bound(judged.lease, now) {
        return Ok(());
    }
    if let Some(other) = judged.case.held {
        if other.0 != address.0 {
            writes.push(Write::Drop(Key::Lease(other)))?;
        }
    }
    if let Some(owner) = owner_of(judged.lease) {
        if owner != client {
            writes.push(Write::Drop(Key::Held(owner)))?;
        }
    }
    writes.push(lease_put(address, Hold::Offered(client), 120, now))?;
    writes.push(Write::Put(Key::Held(client), Row::Held(address)))
}

fn is_live_bound(lease: Option<Lease>, now: Moment) -> bool {
    match lease {
        Some(lease) => matches!(lease.hold, Hold::Bound(_)) && now.0 < lease.expiry.0,
        None => false,
    }
}

fn owner_of(lease: Option<Lease>) -> Option<Mac> {
    match lease?.hold {
        Hold::Offered(mac) => Some(mac),
        Hold::Bound(mac) => Some(mac),
        Hold::Declined => None,
    }
}

// ---- what is sent

// An OFFER (2) or an ACK (5), where the site, the pool and the address are there.
fn granted(
    alloc: Global,
    kind: u8,
    m: &Message<'_>,
    judged: &Judged,
) -> Result<Option<Sent>, NoMemory>
    requires { (kind ≡ 2) ⊎ (kind ≡ 5) }
{
    let Some(site) = &judged.case.site else {
        return Ok(None);
    };
    let Some(pool) = judged.case.pool else {
        return Ok(None);
    };
    match judged.chosen {
        Some(address) => reply(alloc, kind, m, site, pool, address),
        None => Ok(None),
    }
}

fn reply(
    alloc: Global,
    kind: u8,
    m: &Message<'_>,
    site: &Site,
    pool: Pool,
    address: Ip4,
) -> Result<Option<Sent>, NoMemory>
    requires { (kind ≡ 2) ⊎ (kind ≡ 5) }
{
    // Each pool that is read has such a prefix.
    let prefix = pool.prefix;
    if prefix < 8 {
        return Ok(None);
    }
    if 30 < prefix {
        return Ok(None);
    }
    let offer = Offer {
        kind,
        yiaddr: address,
        site: site.copy(),
        pool,
        name: file_name(&HmacKey::of(&site.secret), m.mac(), address),
    };
    let bytes = write_reply(alloc, m, &offer)?;
    Ok(Some(sent(m, m.ciaddr(), bytes)))
}

// To the relay's server port, or without a relay to the client's own.
fn sent(m: &Message<'_>, direct: Ip4, bytes: Bytes) -> Sent {
    let relay = m.giaddr();
    let to = if relay.0 == 0 {
        Peer {
            ip: direct,
            port: 68,
        }
    } else {
        Peer {
            ip: relay,
            port: 67,
        }
    };
    Sent::Datagram {
        service: Service::Dhcp,
        to,
        bytes,
    }
}
