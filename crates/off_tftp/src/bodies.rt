//! The body of a modem's file: as it was kept, or built of the modem's profile.

ghost use Rattle.std.specs.Prelude.{◌≡◌, true, is_some, option_map, IfOk, IfErr, IfSome};
ghost use Rattle.std.specs.Prelude.{Some, MatchResult};
ghost use Rattle.off_kept.specs.Entries.{kept_of};
ghost use Rattle.off_base.specs.Tree.{AllFit, spelling};
ghost use Rattle.off_base.specs.declared.macs.Mac.{Mac as MacSeen};
ghost use Rattle.off_account_rules.specs.Rows.{modem_in};
ghost use Rattle.off_file_rules.specs.Profile.{profile_in};
ghost use Rattle.off_kept.specs.Right.{AllRight};
ghost use Rattle.off_outside.specs.declared.keeper.KeepErr.TheVariants.{Memory};
ghost use Rattle.off_outside.specs.KeeperCalls.{Looks, Spent};
ghost use Rattle.off_tftp.specs.Keeping.{entry_of};

use crate::gathering::read_profile;
use off_base::{Mac, NoMemory, Secret, Settings};
use off_defs::{Modem, Site};
use off_files::Body;
use off_kept::{Kept, KeptBody};
use off_outside::{KeepErr, Keeper};
use off_tlv::spelled_len;
use std::alloc::Global;

/// The body of a modem by its row, with the row's numbers. It's ten calls, and none where the body
/// is kept.
#[tactic(auto, using(crate::proofs::ReadLemmas::readings))]
pub(crate) fn kept_or_built<K: Keeper>(
    alloc: Global,
    keeper: &mut K,
    kept: &Kept,
    site: &Option<Site>,
    mac: Mac,
    modem: &Modem,
) -> Result<Option<KeptBody>, KeepErr>
    ensures told { Looks result (K.seen keeper.old) (K.seen keeper.new)
        (λ body t. AllRight t kept.now → modem_in t mac ≡ Some modem.now
        → body ≡ option_map (entry_of modem.now) (profile_in t mac)) }
    ensures spent { Spent 10 (K.seen keeper.old) (K.seen keeper.new) }
    ensures few { is_some (kept_of mac kept.now) ≡ true
        → Spent 0 (K.seen keeper.old) (K.seen keeper.new) }
{
    let found = found_in(kept, mac)?;
    if found.is_some() {
        return Ok(found);
    }
    built(alloc, keeper, site, modem)
}

// What is kept of a modem.
fn found_in(kept: &Kept, mac: Mac) -> Result<Option<KeptBody>, KeepErr>
    ensures { MatchResult result (λ found. found ≡ kept_of mac kept.now)
        (λ err. err ≡ Memory) }
{
    Ok(kept.find(mac)?)
}

// The body of a modem, built of the rows of the tables.
#[tactic(auto, using(crate::proofs::ReadLemmas::readings))]
fn built<K: Keeper>(
    alloc: Global,
    keeper: &mut K,
    site: &Option<Site>,
    modem: &Modem,
) -> Result<Option<KeptBody>, KeepErr>
    ensures told { (mac : MacSeen) → Looks result (K.seen keeper.old) (K.seen keeper.new)
        (λ body t. modem_in t mac ≡ Some modem.now
        → body ≡ option_map (entry_of modem.now) (profile_in t mac)) }
    ensures spent { Spent 10 (K.seen keeper.old) (K.seen keeper.new) }
{
    let profile = read_profile(alloc, keeper, modem.subscriber, modem.class)?;
    spelled(alloc, site, modem, &profile)
}

// The body of a profile, where there is one. A profile of the tables has one.
fn spelled(
    alloc: Global,
    site: &Option<Site>,
    modem: &Modem,
    profile: &Option<Settings>,
) -> Result<Option<KeptBody>, KeepErr>
    ensures spelled { IfSome profile.now AllFit → IfOk result
        (λ body. body ≡ option_map (entry_of modem.now) profile.now) }
    ensures err { IfErr result (λ err. err ≡ Memory) }
{
    let Some(profile) = profile else {
        return Ok(None);
    };
    if spelled_len(profile).is_none() {
        return Ok(None);
    }
    let body = spell(alloc, site, profile)?;
    Ok(Some(KeptBody {
        subscriber: modem.subscriber,
        class: modem.class,
        body,
    }))
}

// The spelling of a profile, with the digests of its files begun under the site's secret.
fn spell(alloc: Global, site: &Option<Site>, profile: &Settings) -> Result<Body, NoMemory>
    requires { AllFit profile.now }
    ensures { IfOk result (λ body. body ≡ spelling profile.now) }
{
    let secret = secret_of(site);
    Body::spell(alloc, profile, &secret)
}

// The site's secret. Where there is no site no file is signed, and an empty one stands for it.
fn secret_of(site: &Option<Site>) -> Secret
    ensures { IfSome site.now (λ site. result ≡ site.secret) }
{
    if let Some(site) = site {
        return site.secret.copy();
    }
    let Some(empty) = Secret::read(&[]) else {
        unreachable!()
    };
    empty
}
