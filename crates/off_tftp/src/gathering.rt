//! What is read of the tables for a peer.

ghost use Rattle.std.specs.Prelude.{◌≡◌, ◌++◌, ◌∷◌, [], None, Ok, option_and_then, IfOk};
ghost use Rattle.std.specs.Prelude.{true, option_map, MatchResult};
ghost use Rattle.off_defs.specs.declared.tables.Modem.{Modem as ModemSeen};
ghost use Rattle.off_account_rules.specs.Rows.{modem_in};
ghost use Rattle.off_file_rules.specs.Profile.{profile_at, profile_in, add_ons_in};
ghost use Rattle.off_transfer_rules.specs.View.{owner_by};
ghost use Rattle.off_kept.specs.Right.{AllRight};
ghost use Rattle.off_tftp.specs.Seen.{view_at, view_of, without_profile, seen_for, IsNamed, Shows};
ghost use Rattle.off_tftp.specs.Seen.{profile_from};
ghost use Rattle.off_tftp.specs.Calls.{FewWhereUnnamed};
ghost use Rattle.off_tftp.specs.Keeping.{FewWhereKept, is_kept, entry_for};
ghost use Rattle.off_tftp.specs.Listed.{with_add_on};
ghost use Rattle.off_outside.specs.declared.keeper.KeepErr.TheVariants.{Memory};
ghost use Rattle.off_outside.specs.KeeperCalls.{Looks, Spent};

use crate::bodies::kept_or_built;
use crate::judging::names_file;
use crate::requests::Request;
use off_base::{Ip4, Mac, Settings};
use off_defs::{ADD_ONS, Class, Lease, Modem, SharedSettings, Site, Subscriber};
use off_files::{AddOns, profile_of};
use off_kept::{Kept, KeptBody};
use off_outside::{KeepErr, Keeper};
use off_readers::{
    owner_of, read_add_on, read_class, read_lease, read_modem, read_site, read_subscriber,
};
use std::alloc::Global;

/// The site of the hub, the lease of the peer's address, of the modem that owns it the row, and the
/// body of its file with the row's numbers.
#[derive(Drop)]
pub(crate) struct Seen {
    pub(crate) site: Option<Site>,
    pub(crate) lease: Option<Lease>,
    pub(crate) modem: Option<Modem>,
    pub(crate) body: Option<KeptBody>,
}

/// All of it but the body. It's three calls.
#[tactic(auto, using(crate::proofs::ReadLemmas::readings))]
pub(crate) fn look<K: Keeper>(
    alloc: Global,
    keeper: &mut K,
    hub: Option<u32>,
    ip: Ip4,
) -> Result<Seen, KeepErr>
    ensures told { Looks result (K.seen keeper.old) (K.seen keeper.new)
        (λ seen t. view_of seen ≡ without_profile (view_at t hub ip)) }
    ensures bare { IfOk result (λ seen. seen.body ≡ None) }
    ensures spent { Spent 3 (K.seen keeper.old) (K.seen keeper.new) }
{
    let site = read_site(alloc, keeper, hub)?;
    let lease = read_lease(alloc, keeper, ip)?;
    let modem = read_owner(alloc, keeper, owner_by(lease))?;
    Ok(Seen {
        site,
        lease,
        modem,
        body: None,
    })
}

/// What a request for a file needs of it. It's three calls, and ten more for a body that isn't
/// kept; a body is looked for only where the name is right, so that a wrong one costs little.
#[tactic(auto, using(crate::proofs::ReadLemmas::readings))]
pub(crate) fn look_for_file<K: Keeper>(
    alloc: Global,
    keeper: &mut K,
    kept: &Kept,
    request: &Request<'_>,
) -> Result<Seen, KeepErr>
    ensures told { Looks result (K.seen keeper.old) (K.seen keeper.new)
        (λ seen t. AllRight t kept.now
        → Shows seen (seen_for request.now.at.0 request.now.from.ip request.now.name.now
        (view_at t request.now.hub request.now.from.ip))) }
    ensures named { IfOk result
        (IsNamed request.now.at.0 request.now.from.ip request.now.name.now) }
    ensures spent { Spent 13 (K.seen keeper.old) (K.seen keeper.new) }
    ensures few { FewWhereKept request.now.from.ip kept.now
        (K.seen keeper.old) (K.seen keeper.new) }
    ensures few_unnamed { FewWhereUnnamed request.now.at.0 request.now.hub request.now.from.ip
        request.now.name.now (K.seen keeper.old) (K.seen keeper.new) }
    ensures few_seen { IfOk result (λ seen. is_kept (owner_by seen.lease) kept.now ≡ true
        → Spent 3 (K.seen keeper.old) (K.seen keeper.new)) }
{
    let ip = request.from.ip;
    let mut seen = look(alloc, keeper, request.hub, ip)?;
    if !names_file(&seen, request.at, ip, request.name) {
        return Ok(seen);
    }
    let owner = owner_by(seen.lease);
    let body = body_for(alloc, keeper, kept, &seen.site, owner, &seen.modem)?;
    seen.body = body;
    Ok(seen)
}

fn owner_by(lease: Option<Lease>) -> Option<Mac>
    ensures { result ≡ owner_by lease }
{
    match lease {
        Some(lease) => owner_of(lease.hold),
        None => None,
    }
}

#[tactic(auto, using(crate::proofs::ReadLemmas::readings))]
fn read_owner<K: Keeper>(
    alloc: Global,
    keeper: &mut K,
    owner: Option<Mac>,
) -> Result<Option<Modem>, KeepErr>
    ensures told { Looks result (K.seen keeper.old) (K.seen keeper.new)
        (λ modem t. modem ≡ option_and_then (modem_in t) owner) }
    ensures spent { Spent 1 (K.seen keeper.old) (K.seen keeper.new) }
{
    match owner {
        Some(mac) => read_modem(alloc, keeper, mac),
        None => Ok(None),
    }
}

// The body of a modem's file, where its row, its subscriber and its class are there. It's ten
// calls, and none where the body is kept.
#[tactic(auto, using(crate::proofs::ReadLemmas::readings))]
fn body_for<K: Keeper>(
    alloc: Global,
    keeper: &mut K,
    kept: &Kept,
    site: &Option<Site>,
    owner: Option<Mac>,
    modem: &Option<Modem>,
) -> Result<Option<KeptBody>, KeepErr>
    ensures told { Looks result (K.seen keeper.old) (K.seen keeper.new)
        (λ body t. AllRight t kept.now → modem.now ≡ option_and_then (modem_in t) owner
        → body ≡ entry_for modem.now (option_and_then (profile_in t) owner)) }
    ensures spent { Spent 10 (K.seen keeper.old) (K.seen keeper.new) }
    ensures few { is_kept owner kept.now ≡ true
        → Spent 0 (K.seen keeper.old) (K.seen keeper.new) }
{
    let Some(mac) = owner else { return Ok(None) };
    let Some(modem) = modem else { return Ok(None) };
    kept_or_built(alloc, keeper, kept, site, mac, modem)
}

/// The profile of a subscriber and a class, where both are there. It's ten calls.
#[tactic(auto, using(crate::proofs::ReadLemmas::readings))]
pub(crate) fn read_profile<K: Keeper>(
    alloc: Global,
    keeper: &mut K,
    subscriber: u32,
    class: u32,
) -> Result<Option<Settings>, KeepErr>
    ensures told { Looks result (K.seen keeper.old) (K.seen keeper.new)
        (λ profile t. profile ≡ profile_at t subscriber class) }
    ensures spent { Spent 10 (K.seen keeper.old) (K.seen keeper.new) }
{
    let who = read_subscriber(alloc, keeper, subscriber)?;
    let class = read_class(alloc, keeper, class)?;
    let add_ons = read_add_ons(alloc, keeper, subscriber)?;
    profile_from(alloc, &who, &class, &add_ons)
}

fn profile_from(
    alloc: Global,
    who: &Option<Subscriber>,
    class: &Option<Class>,
    add_ons: &AddOns,
) -> Result<Option<Settings>, KeepErr>
    ensures { MatchResult result (λ profile. profile ≡ profile_from who.now class.now add_ons.now)
        (λ err. err ≡ Memory) }
{
    let Some(who) = who else { return Ok(None) };
    let Some(class) = class else {
        return Ok(None);
    };
    let profile = profile_of(alloc, who, class.settings.as_settings(), add_ons)?;
    Ok(Some(profile))
}

// A subscriber's add-ons, in ascending number. It's eight calls.
#[tactic(auto, using(crate::proofs::ReadLemmas::readings))]
fn read_add_ons<K: Keeper>(
    alloc: Global,
    keeper: &mut K,
    subscriber: u32,
) -> Result<AddOns, KeepErr>
    ensures told { Looks result (K.seen keeper.old) (K.seen keeper.new)
        (λ add_ons t. add_ons ≡ add_ons_in t subscriber) }
    ensures spent { Spent 8 (K.seen keeper.old) (K.seen keeper.new) }
{
    let mut add_ons = AddOns::new(alloc);
    for number in 0..ADD_ONS {
        let settings = read_add_on(alloc, keeper, subscriber, number)?;
        push_some(number, settings, &mut add_ons)?;
    }
    Ok(add_ons)
}

// Appends an add-on, if it's there.
fn push_some(number: u8, settings: Option<SharedSettings>, out: &mut AddOns) -> Result<(), KeepErr>
    ensures { MatchResult result (λ _. out.new ≡ with_add_on out.old number settings)
        (λ err. err ≡ Memory) }
{
    let Some(settings) = settings else {
        return Ok(());
    };
    Ok(out.push(number, settings)?)
}
