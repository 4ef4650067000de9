//! What becomes of a device's message, once its rows are read and an address is chosen.

ghost use Rattle.std.specs.Prelude.{◌≡◌, IfOk, None};
ghost use Rattle.off_asking.specs.Asking.{client};
ghost use Rattle.off_asking.specs.Claims.{refused_by};
ghost use Rattle.off_cpe_rules.specs.Rules.{early};
ghost use Rattle.off_cpe_rules.specs.Steps.{device_step_for, accepts, refuses, reply_to_refused};
ghost use Rattle.off_cpe_rules.specs.Steps.{step_by, offered, bound, set_aside};
ghost use Rattle.off_asking.specs.Choice.{for_some};
ghost use Rattle.off_cpe_rules.specs.Steps.{given_up, offers, acknowledges, declines, releases};
ghost use Rattle.off_cpe.specs.Stages.{HasGoodPool};

use crate::replying::reply_for;
use crate::ruling::late_refusal;
use crate::writing::{bound, given_up, offered, set_aside};
use off_asking::{Asked, Kind, client, nak_to};
use off_base::{Ip4, Mac, Moment, NoMemory};
use off_cpe_rules::{DeviceCase, DeviceStep, DeviceWord};
use off_defs::{DeviceLease, Sent, Site, Writes};
use std::alloc::Global;

const OFFER: u8 = 2;

const ACK: u8 = 5;

/// What becomes of a device's message of which no early rule is broken, by its rows, the address
/// that it's about, and that address's lease.
#[tactic(auto, using(crate::proofs::CaseLemmas::late_ways))]
pub(crate) fn settle(
    alloc: Global,
    now: Moment,
    modem: Mac,
    m: &Asked<'_>,
    case: &DeviceCase,
    chosen: Option<Ip4>,
    lease: Option<DeviceLease>,
) -> Result<DeviceStep, NoMemory>
    requires early { refused_by (early m.now case.now) ≡ None }
    requires fits { HasGoodPool case.now }
    ensures { IfOk result (λ step. step ≡ device_step_for now.0 modem m.now case.now chosen lease) }
{
    match late_refusal(m, case, chosen) {
        Some(word) => refuse(alloc, m, case, word),
        None => accept(alloc, now, modem, m, case, chosen, lease),
    }
}

/// A message that is refused changes nothing, and has no reply but for one word.
pub(crate) fn refuse(
    alloc: Global,
    m: &Asked<'_>,
    case: &DeviceCase,
    word: DeviceWord,
) -> Result<DeviceStep, NoMemory>
    ensures { IfOk result (λ step. step ≡ refuses m.now case.now word) }
{
    let reply = reply_to_refused(alloc, m, case, word)?;
    Ok(DeviceStep {
        writes: Writes::new(alloc),
        reply,
        word,
    })
}

fn reply_to_refused(
    alloc: Global,
    m: &Asked<'_>,
    case: &DeviceCase,
    word: DeviceWord,
) -> Result<Option<Sent>, NoMemory>
    ensures { IfOk result (λ reply. reply ≡ reply_to_refused m.now case.now word) }
{
    if word != DeviceWord::NotYours {
        return Ok(None);
    }
    match &case.site {
        Some(site) => Ok(Some(nak_to(alloc, m, site)?)),
        None => Ok(None),
    }
}

fn accept(
    alloc: Global,
    now: Moment,
    modem: Mac,
    m: &Asked<'_>,
    case: &DeviceCase,
    chosen: Option<Ip4>,
    lease: Option<DeviceLease>,
) -> Result<DeviceStep, NoMemory>
    requires fits { HasGoodPool case.now }
    ensures { IfOk result (λ step. step ≡ accepts now.0 modem m.now case.now chosen lease) }
{
    match m.kind() {
        Kind::Discover => offer(alloc, now, modem, m, case, chosen, lease),
        Kind::Request => acknowledge(alloc, now, modem, m, case, chosen),
        Kind::Decline => decline(alloc, now, chosen),
        Kind::Release | Kind::Other(_) => release(alloc, chosen),
    }
}

fn offer(
    alloc: Global,
    now: Moment,
    modem: Mac,
    m: &Asked<'_>,
    case: &DeviceCase,
    chosen: Option<Ip4>,
    lease: Option<DeviceLease>,
) -> Result<DeviceStep, NoMemory>
    requires fits { HasGoodPool case.now }
    ensures { IfOk result (λ step. step ≡ offers now.0 modem m.now case.now chosen lease) }
{
    let writes = match chosen {
        Some(address) => offered(alloc, now, modem, client(m), case.own, address, lease)?,
        None => Writes::new(alloc),
    };
    let reply = reply_for(alloc, OFFER, m, case, chosen)?;
    Ok(DeviceStep {
        writes,
        reply,
        word: DeviceWord::Offer,
    })
}

fn acknowledge(
    alloc: Global,
    now: Moment,
    modem: Mac,
    m: &Asked<'_>,
    case: &DeviceCase,
    chosen: Option<Ip4>,
) -> Result<DeviceStep, NoMemory>
    requires fits { HasGoodPool case.now }
    ensures { IfOk result (λ step. step ≡ acknowledges now.0 modem m.now case.now chosen) }
{
    let writes = ack_writes(alloc, now, modem, client(m), &case.site, chosen)?;
    let reply = reply_for(alloc, ACK, m, case, chosen)?;
    Ok(DeviceStep {
        writes,
        reply,
        word: DeviceWord::Ack,
    })
}

fn ack_writes(
    alloc: Global,
    now: Moment,
    modem: Mac,
    device: Mac,
    site: &Option<Site>,
    chosen: Option<Ip4>,
) -> Result<Writes, NoMemory>
    ensures { IfOk result (λ writes. writes
        ≡ for_some (λ address. for_some (bound now.0 modem device address) site.now) chosen) }
{
    let Some(address) = chosen else {
        return Ok(Writes::new(alloc));
    };
    match site {
        Some(site) => bound(alloc, now, modem, device, address, site),
        None => Ok(Writes::new(alloc)),
    }
}

fn decline(alloc: Global, now: Moment, chosen: Option<Ip4>) -> Result<DeviceStep, NoMemory>
    ensures { IfOk result (λ step. step ≡ declines now.0 chosen) }
{
    let writes = match chosen {
        Some(address) => set_aside(alloc, now, address)?,
        None => Writes::new(alloc),
    };
    Ok(silent(writes, DeviceWord::Declined))
}

fn release(alloc: Global, chosen: Option<Ip4>) -> Result<DeviceStep, NoMemory>
    ensures { IfOk result (λ step. step ≡ releases chosen) }
{
    let writes = match chosen {
        Some(address) => given_up(alloc, address)?,
        None => Writes::new(alloc),
    };
    Ok(silent(writes, DeviceWord::Released))
}

/// A step for which nothing is sent.
pub(crate) fn silent(writes: Writes, word: DeviceWord) -> DeviceStep
    ensures { result ≡ step_by word writes None }
{
    DeviceStep {
        writes,
        reply: None,
        word,
    }
}
