//! A read request that didn't come before.

ghost use Rattle.std.specs.Prelude.{◌≡◌, ◌≤◌, List, Option, Some, length, option_map};
ghost use Rattle.std.specs.Prelude.{true, false, is_some, Ok, IfOk, IfSome, MatchResult};
ghost use Rattle.std.specs.FinMap as map;
ghost use Rattle.off_base.specs.Tree.{Tree, spelling};
ghost use Rattle.off_account_rules.specs.Rows.{passes};
ghost use Rattle.off_file_rules.specs.File.{most_file_bytes};
ghost use Rattle.off_packets.specs.Packets.{Reads, packet_of};
ghost use Rattle.off_transfer_rules.specs.View.{View};
ghost use Rattle.off_transfer_rules.specs.Steps.{way_anew};
ghost use Rattle.off_transfer_rules.specs.Transfers.{first_word};
ghost use Rattle.off_tftp.specs.Keeping.{entry_for, BeginsFor};
ghost use Rattle.off_tftp.specs.Opened.{IsBegun, Finds, Refuses, Begins};
ghost use Rattle.off_tftp.specs.Places.{IsPlaceOf};
ghost use Rattle.off_tftp.specs.Granted.{IsFor, came_in, asked_in};
ghost use Rattle.off_tftp.specs.Deciding.{Serves, CanBe, SeesNothing, SeesBegun, Starts};
ghost use Rattle.off_tftp.specs.Deciding.{goes_on, new_transfer_by, after_change};
ghost use Rattle.off_tftp.specs.Agreements.{IsAgreementOf, agrees_now, stands_for};
ghost use Rattle.off_tftp.specs.Seen.{view_of, view_with, held_by, IsNamed, CanServe};
ghost use Rattle.off_tftp.specs.Stages.{lacks_room, repeats};

use crate::agreements::Agreement;
use crate::deciding::{Change, Decision, Refusal, packet_to, refuse};
use crate::files::File;
use crate::gathering::Seen;
use crate::judging::{agreement_of, holder};
use crate::live::Live;
use crate::requests::{Grant, Request};
use crate::transfers::Transfers;
use off_base::{Mac, NoMemory};
use off_defs::Site;
use off_files::Body;
use off_kept::KeptBody;
use off_packets::Options;
use off_transfer_rules::TftpWord;
use std::alloc::Global;

// What a read request is granted: the modem whose file it asks for, that modem's subscriber, and
// the body of the file.
#[derive(Clone, Copy)]
struct Found<'a> {
    modem: Mac,
    subscriber: u32,
    body: &'a KeptBody,
}

impl Transfers {
    // Opens the file that is asked for, or refuses.
    #[tactic(auto, using(crate::proofs::BodyLemmas::beginnings))]
    fn open(&self, alloc: Global, seen: &Seen, request: &Request<'_>) -> Result<Decision, NoMemory>
        requires least { IfSome request.now.options.blksize (λ size. 8 ≤ size) }
        requires read { packet_of request.now.bytes.now
            ≡ Ok (Reads request.now.name.now request.now.options) }
        requires place { IsPlaceOf self.now request.now.from request.now.place }
        requires named { IsNamed request.now.at.0 request.now.from.ip request.now.name.now
            seen.now }
        ensures done { (profile : Option (List Tree))
            → seen.now.body ≡ entry_for seen.now.modem profile
            → CanServe (view_with seen.now profile) request.now.at.0 request.now.from.ip
            → IfOk result (Serves (view_with seen.now profile) self.now (came_in request.now)
            (way_anew (view_with seen.now profile) request.now.at.0 request.now.from.ip
            (lacks_room self.now request.now.from) (asked_in request.now))) }
        ensures able { IfOk result (λ d. CanBe d.change self.now request.now.from) }
        ensures unseen { IfOk result SeesNothing }
        ensures agrees { IfOk result (λ d. IfSome (new_transfer_by d.change)
            (λ x. agrees_now (view_of seen.now) request.now.at.0 request.now.from.ip x ≡ true)) }
        ensures begins { repeats request.now.bytes.now (map.get self.now request.now.from) ≡ false
            → IfOk result (λ d. BeginsFor (held_by request.now.at.0 seen.now.lease)
            request.now.bytes.now (map.get
            (after_change d.change request.now.at.0 self.now request.now.from)
            request.now.from)) }
    {
        match judge(seen, request, self.lacks_room(request)) {
            Ok(found) => begin(alloc, &seen.site, request, &found),
            Err(why) => refuse(alloc, request.from, why),
        }
    }

    /// Opens the file that is asked for, or refuses. What was seen to agree with a transfer that
    /// begins is to be remembered.
    pub(crate) fn open_by(
        &self,
        alloc: Global,
        seen: &Seen,
        request: &Request<'_>,
    ) -> Result<Decision, NoMemory>
        requires least { IfSome request.now.options.blksize (λ size. 8 ≤ size) }
        requires read { packet_of request.now.bytes.now
            ≡ Ok (Reads request.now.name.now request.now.options) }
        requires place { IsPlaceOf self.now request.now.from request.now.place }
        requires named { IsNamed request.now.at.0 request.now.from.ip request.now.name.now
            seen.now }
        ensures done { (profile : Option (List Tree))
            → seen.now.body ≡ entry_for seen.now.modem profile
            → CanServe (view_with seen.now profile) request.now.at.0 request.now.from.ip
            → IfOk result (Serves (view_with seen.now profile) self.now (came_in request.now)
            (way_anew (view_with seen.now profile) request.now.at.0 request.now.from.ip
            (lacks_room self.now request.now.from) (asked_in request.now))) }
        ensures able { IfOk result (λ d. CanBe d.change self.now request.now.from) }
        ensures ends { IfOk result (λ d. goes_on d.change ≡ false) }
        ensures sees { IfOk result (λ d. IfSome d.agreed
            (IsAgreementOf (view_of seen.now) request.now.from.ip)) }
        ensures sees_begun { IfOk result (SeesBegun request.now.at.0 request.now.from) }
        ensures begins { repeats request.now.bytes.now (map.get self.now request.now.from) ≡ false
            → IfOk result (λ d. BeginsFor (held_by request.now.at.0 seen.now.lease)
            request.now.bytes.now (map.get
            (after_change d.change request.now.at.0 self.now request.now.from)
            request.now.from)) }
    {
        let decision = self.open(alloc, seen, request)?;
        Ok(with_seen(seen, request, decision))
    }

    // Whether a transfer for the peer has neither room nor another one to replace.
    fn lacks_room(&self, request: &Request<'_>) -> bool
        requires { IsPlaceOf self.now request.now.from request.now.place }
        ensures { result ≡ lacks_room self.now request.now.from }
    {
        self.get(request.from, request.place).is_none() && self.is_full()
    }
}

// What was decided, with what was seen to agree with the transfer, where one begins.
fn with_seen(seen: &Seen, request: &Request<'_>, decision: Decision) -> Decision
    ensures same { result ≡ record decision { agreed = result.agreed } }
    ensures right { IfSome result.agreed
        (IsAgreementOf (view_of seen.now) request.now.from.ip) }
    ensures stands { IfSome (new_transfer_by decision.change)
        (λ x. agrees_now (view_of seen.now) request.now.at.0 request.now.from.ip x ≡ true
        → passes (stands_for request.now.at.0 request.now.from.ip x) result.agreed ≡ true) }
{
    let Decision {
        word,
        sent,
        change,
        agreed: _,
    } = decision;
    let agreed = seen_of(seen, request, &change);
    Decision {
        word,
        sent,
        change,
        agreed,
    }
}

fn seen_of(seen: &Seen, request: &Request<'_>, change: &Change) -> Option<Agreement>
    ensures right { IfSome result (IsAgreementOf (view_of seen.now) request.now.from.ip) }
    ensures stands { IfSome (new_transfer_by change.now)
        (λ x. agrees_now (view_of seen.now) request.now.at.0 request.now.from.ip x ≡ true
        → passes (stands_for request.now.at.0 request.now.from.ip x) result ≡ true) }
{
    match change {
        Change::Begins { live, .. } => agreement_of(seen, request.at, request.from.ip, live),
        _ => None,
    }
}

// The rules for a read request that didn't come before, in their order. The first that is broken
// refuses it.
fn judge<'a>(seen: &'a Seen, request: &Request<'_>, lacks_room: bool) -> Result<Found<'a>, Refusal>
    ensures { MatchResult result
        (λ found. Finds request.now.at.0 seen.now lacks_room found)
        (λ why. Refuses request.now seen.now lacks_room why) }
{
    let Some(modem) = holder(request.at, seen.lease) else {
        return Err(Refusal::NoLease);
    };
    let Some(row) = &seen.modem else {
        return Err(Refusal::Agreement);
    };
    let Some(body) = &seen.body else {
        return Err(Refusal::Name);
    };
    if lacks_room {
        return Err(Refusal::Full);
    }
    Ok(Found {
        modem,
        subscriber: row.subscriber,
        body,
    })
}

// Begins a transfer of what was found.
fn begin(
    alloc: Global,
    site: &Option<Site>,
    request: &Request<'_>,
    found: &Found<'_>,
) -> Result<Decision, NoMemory>
    requires least { IfSome request.now.options.blksize (λ size. 8 ≤ size) }
    requires read { packet_of request.now.bytes.now
        ≡ Ok (Reads request.now.name.now request.now.options) }
    ensures { IfOk result (Begins request.now site.now found.now) }
{
    let entry = shared(found.body)?;
    let grant = grant_for(site, found.body.body.share()?, request, found);
    start(alloc, request, entry, grant)
}

// A transfer that begins with its first packet, where there is a file.
fn start(
    alloc: Global,
    request: &Request<'_>,
    entry: KeptBody,
    grant: Option<Grant>,
) -> Result<Decision, NoMemory>
    requires least { IfSome request.now.options.blksize (λ size. 8 ≤ size) }
    requires read { packet_of request.now.bytes.now
        ≡ Ok (Reads request.now.name.now request.now.options) }
    requires few { IfSome grant (λ grant. length grant.file ≤ most_file_bytes) }
    ensures { IfOk result (Starts request.now entry grant) }
{
    let Some(grant) = grant else {
        return refuse(alloc, request.from, Refusal::Name);
    };
    let live = Live::begin(alloc, request, grant)?;
    let packet = live.last_packet(alloc)?;
    Ok(Decision {
        word: first_word(request.options),
        sent: Some(packet_to(request.from, packet)),
        change: Change::Begins {
            place: request.place,
            live,
            entry,
        },
        agreed: None,
    })
}

// One more owner of what is kept of a modem.
fn shared(found: &KeptBody) -> Result<KeptBody, NoMemory>
    ensures { IfOk result (λ entry. entry ≡ found.now) }
{
    Ok(KeptBody {
        subscriber: found.subscriber,
        class: found.class,
        body: found.body.share()?,
    })
}

// The file of a modem's body, where there is a site.
fn grant_for(
    site: &Option<Site>,
    body: Body,
    request: &Request<'_>,
    found: &Found<'_>,
) -> Option<Grant>
    ensures built { (v : View) → v.site ≡ site.now → option_map spelling v.profile ≡ Some body
        → CanServe v request.now.at.0 request.now.from.ip
        → IsBegun v request.now.at.0 request.now.from.ip (option_map (λ g. g.file) result) }
    ensures whose { IfSome result (IsFor found.now.modem found.now.subscriber) }
    ensures few { IfSome result (λ grant. length grant.file ≤ most_file_bytes) }
    ensures sited { is_some result ≡ true → is_some site.now ≡ true }
{
    let Some(site) = site else { return None };
    let ip = request.from.ip;
    let Some(file) = File::signed(body, request.at, ip, site.secret.as_slice()) else {
        return None;
    };
    Some(Grant {
        modem: found.modem,
        subscriber: found.subscriber,
        file,
    })
}

fn first_word(options: Options) -> TftpWord
    ensures { result ≡ first_word options }
{
    if options.has_any() {
        TftpWord::Oack
    } else {
        TftpWord::Block(1)
    }
}
