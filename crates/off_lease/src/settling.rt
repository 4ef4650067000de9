//! What becomes of a message, once its rows are read and an address is chosen.

ghost use Rattle.std.specs.Prelude.{◌≡◌, IfOk, IsTrue, Some, None, false};
ghost use Rattle.off_account_rules.specs.Rows.{pool_fits};
ghost use Rattle.off_lease_rules.specs.declared.words.DhcpWord.TheVariants as word;
ghost use Rattle.off_asking.specs.Asking.{client, claimed, is_discover};
ghost use Rattle.off_asking.specs.Claims.{refused_by};
ghost use Rattle.off_lease_rules.specs.Rules.{early, late};
ghost use Rattle.off_lease_rules.specs.Steps.{lease_step_for, accepts, refuses, reply_to_refused};
ghost use Rattle.off_lease_rules.specs.Steps.{lease_step_by, offered, bound, offer_to};
ghost use Rattle.off_lease_rules.specs.Steps.{declines, releases};
ghost use Rattle.off_lease.specs.Stages.{knowing, HasGoodPool};

use crate::granting::{Granted, given_back, grant};
use crate::replying::offer_to;
use crate::ruling::late_refusal;
use crate::writing::{bound, given_up, offered, set_aside};
use off_asking::{Asked, Kind, client, nak_to};
use off_base::{Ip4, Moment, NoMemory};
use off_defs::{Lease, Sent, Site, Writes};
use off_lease_rules::{Case, DhcpWord, LeaseStep};
use off_mic::HmacKey;
use std::alloc::Global;

const OFFER: u8 = 2;

const ACK: u8 = 5;

/// What becomes of a message of which no early rule is broken.
#[tactic(auto, using(crate::proofs::CaseLemmas::late_ways))]
pub(crate) fn settle(
    alloc: Global,
    key: &mut HmacKey,
    now: Moment,
    m: &Asked<'_>,
    case: &Case,
    chosen: Option<Ip4>,
    lease: Option<Lease>,
) -> Result<LeaseStep, NoMemory>
    requires early { refused_by (early m.now case.now) ≡ None }
    requires fits { HasGoodPool case.now }
    requires about { is_discover m.now ≡ false → chosen ≡ claimed m.now }
    ensures { IfOk result (λ step. step ≡ lease_step_for now.0 m.now case.now chosen lease) }
{
    match late_refusal(m, case, chosen) {
        Some(word) => refuse(alloc, m, &case.site, word),
        None => accept(alloc, key, now, m, case, chosen, lease),
    }
}

/// A message that is refused changes nothing, and has no reply but for one word.
pub(crate) fn refuse(
    alloc: Global,
    m: &Asked<'_>,
    site: &Option<Site>,
    word: DhcpWord,
) -> Result<LeaseStep, NoMemory>
    ensures { IfOk result (λ step. step ≡ refuses m.now (knowing site.now) word) }
{
    let reply = reply_to_refused(alloc, m, site, word)?;
    Ok(LeaseStep {
        writes: Writes::new(alloc),
        reply,
        word,
    })
}

fn reply_to_refused(
    alloc: Global,
    m: &Asked<'_>,
    site: &Option<Site>,
    word: DhcpWord,
) -> Result<Option<Sent>, NoMemory>
    ensures { IfOk result (λ reply. reply ≡ reply_to_refused m.now (knowing site.now) word) }
{
    if word != DhcpWord::NotYourAddress {
        return Ok(None);
    }
    match site {
        Some(site) => Ok(Some(nak_to(alloc, m, site)?)),
        None => Ok(None),
    }
}

// What becomes of a message that no rule refuses: what the rules looked for is all there.
fn accept(
    alloc: Global,
    key: &mut HmacKey,
    now: Moment,
    m: &Asked<'_>,
    case: &Case,
    chosen: Option<Ip4>,
    lease: Option<Lease>,
) -> Result<LeaseStep, NoMemory>
    requires early { refused_by (early m.now case.now) ≡ None }
    requires late { refused_by (late m.now case.now chosen) ≡ None }
    requires fits { HasGoodPool case.now }
    requires about { is_discover m.now ≡ false → chosen ≡ claimed m.now }
    ensures { IfOk result (λ step. step ≡ accepts now.0 m.now case.now chosen lease) }
{
    match m.kind() {
        Kind::Discover => offer(alloc, key, now, m, &grant(case, chosen), case.held, lease),
        Kind::Request => acknowledge(alloc, key, now, m, &grant(case, chosen)),
        Kind::Decline => decline(alloc, now, m, given_back(chosen)),
        Kind::Release => release(alloc, m, given_back(chosen)),
        Kind::Other(_) => unreachable!(),
    }
}

fn offer(
    alloc: Global,
    key: &mut HmacKey,
    now: Moment,
    m: &Asked<'_>,
    granted: &Granted<'_>,
    held: Option<Ip4>,
    lease: Option<Lease>,
) -> Result<LeaseStep, NoMemory>
    requires { IsTrue (pool_fits granted.now.pool) }
    ensures { IfOk result (λ step. step ≡ lease_step_by word.Offer
        (offered now.0 (client m.now) held granted.now.address lease)
        (Some (offer_to 2 m.now granted.now.site.now granted.now.pool granted.now.address))) }
{
    let writes = offered(alloc, now, client(m), held, granted.address, lease)?;
    let reply = offer_to(alloc, key, OFFER, m, granted)?;
    Ok(LeaseStep {
        writes,
        reply: Some(reply),
        word: DhcpWord::Offer,
    })
}

fn acknowledge(
    alloc: Global,
    key: &mut HmacKey,
    now: Moment,
    m: &Asked<'_>,
    granted: &Granted<'_>,
) -> Result<LeaseStep, NoMemory>
    requires { IsTrue (pool_fits granted.now.pool) }
    ensures { IfOk result (λ step. step ≡ lease_step_by word.Ack
        (bound now.0 (client m.now) granted.now.address granted.now.site.now)
        (Some (offer_to 5 m.now granted.now.site.now granted.now.pool granted.now.address))) }
{
    let writes = bound(alloc, now, client(m), granted.address, granted.site)?;
    let reply = offer_to(alloc, key, ACK, m, granted)?;
    Ok(LeaseStep {
        writes,
        reply: Some(reply),
        word: DhcpWord::Ack,
    })
}

fn decline(alloc: Global, now: Moment, m: &Asked<'_>, address: Ip4) -> Result<LeaseStep, NoMemory>
    ensures { IfOk result (λ step. step ≡ declines now.0 m.now (Some address)) }
{
    let writes = set_aside(alloc, now, client(m), address)?;
    Ok(silent(writes, DhcpWord::Declined))
}

fn release(alloc: Global, m: &Asked<'_>, address: Ip4) -> Result<LeaseStep, NoMemory>
    ensures { IfOk result (λ step. step ≡ releases m.now (Some address)) }
{
    let writes = given_up(alloc, client(m), address)?;
    Ok(silent(writes, DhcpWord::Released))
}

/// A step for which nothing is sent.
pub(crate) fn silent(writes: Writes, word: DhcpWord) -> LeaseStep
    ensures { result ≡ lease_step_by word writes None }
{
    LeaseStep {
        writes,
        reply: None,
        word,
    }
}
