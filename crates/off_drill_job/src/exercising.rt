ghost use Rattle.std.specs.Prelude.{◌≡◌, ◌≤◌, ◌<◌, ◌+◌, MatchResult};
ghost use Rattle.off_drill_laws.specs.Stages.{Waits, Gets};
ghost use Rattle.off_drill_parts.specs.Asking.{event_for, hoped_line};
ghost use Rattle.off_drill_job.specs.Founding.{Halts};
ghost use Rattle.off_drill_job.specs.Exercising.{TookTurn, LosesTurn, Exercised, Stopped};

use off_drill_parts::{Ask, count_said, hoped_line, message};
use off_drill_rules::Tally;
use off_office::{Office, send_all};
use off_outside::{Event, KeepErr, Keeper, Link, Outcome, Pass, Replies};
use std::alloc::Global;

/// How many packets a modem acknowledges of one file at most.
const MOST_ACKNOWLEDGED: u16 = 200;

/// Has the office serve so many modems, one after another, and counts what it says.
pub(crate) fn exercise<L: Link, K: Keeper>(
    alloc: Global,
    count: u32,
    office: &mut Office,
    keeper: &mut K,
    link: &mut L,
    tally: &mut Tally,
) -> Result<(), KeepErr>
    requires few { count ≤ 4000 }
    ensures { MatchResult result
        (λ _. Exercised count (Waits 0) (Waits count) office.old office.new
        (K.seen keeper.old) (K.seen keeper.new) (L.seen link.old) (L.seen link.new)
        tally.old tally.new)
        (λ err. Stopped err count (Waits 0) office.old
        (K.seen keeper.old) (K.seen keeper.new) (L.seen link.old) (L.seen link.new)) }
{
    for k in 0..count {
        serve_modem(alloc, count, k, office, keeper, link, tally)?;
    }
    Ok(())
}

// Has the office serve the next modem behind `k` others: it asks for an address, and then for its
// file. Where it isn't given what it asks for, the rest of what it would do is left out.
fn serve_modem<L: Link, K: Keeper>(
    alloc: Global,
    count: u32,
    k: u32,
    office: &mut Office,
    keeper: &mut K,
    link: &mut L,
    tally: &mut Tally,
) -> Result<(), KeepErr>
    requires more { k < count }
    requires few { count ≤ 4000 }
    ensures { MatchResult result
        (λ _. Exercised count (Waits k) (Waits (k + 1)) office.old office.new
        (K.seen keeper.old) (K.seen keeper.new) (L.seen link.old) (L.seen link.new)
        tally.old tally.new)
        (λ err. Stopped err count (Waits k) office.old
        (K.seen keeper.old) (K.seen keeper.new) (L.seen link.old) (L.seen link.new)) }
{
    let is_offered = ask(alloc, k + 1, Ask::Offer, office, keeper, link, tally)?;
    if !is_offered {
        return Ok(());
    }
    let is_leased = ask(alloc, k + 1, Ask::Lease, office, keeper, link, tally)?;
    if !is_leased {
        return Ok(());
    }
    let is_begun = ask(alloc, k + 1, Ask::File, office, keeper, link, tally)?;
    if !is_begun {
        return Ok(());
    }
    get_file(alloc, count, k, office, keeper, link, tally)
}

// Has the next modem behind `k` others acknowledge the packets of its file, until it has all of it.
fn get_file<L: Link, K: Keeper>(
    alloc: Global,
    count: u32,
    k: u32,
    office: &mut Office,
    keeper: &mut K,
    link: &mut L,
    tally: &mut Tally,
) -> Result<(), KeepErr>
    requires more { k < count }
    requires few { count ≤ 4000 }
    ensures { MatchResult result
        (λ _. Exercised count (Gets k 0) (Waits (k + 1)) office.old office.new
        (K.seen keeper.old) (K.seen keeper.new) (L.seen link.old) (L.seen link.new)
        tally.old tally.new)
        (λ err. Stopped err count (Gets k 0) office.old
        (K.seen keeper.old) (K.seen keeper.new) (L.seen link.old) (L.seen link.new)) }
{
    for number in 0..MOST_ACKNOWLEDGED {
        let has_all = ask(alloc, k + 1, Ask::Next(number), office, keeper, link, tally)?;
        if has_all {
            return Ok(());
        }
    }
    Ok(())
}

// Modem `i` asks the office for something, and tells whether the line is the one that it hopes for.
fn ask<L: Link, K: Keeper>(
    alloc: Global,
    i: u32,
    wanted: Ask,
    office: &mut Office,
    keeper: &mut K,
    link: &mut L,
    tally: &mut Tally,
) -> Result<bool, KeepErr>
    requires { i ≤ 4000 }
    ensures { MatchResult result
        (λ same. TookTurn (event_for wanted i) (hoped_line wanted) same office.old office.new
        (K.seen keeper.old) (K.seen keeper.new) (L.seen link.old) (L.seen link.new)
        tally.old tally.new)
        (λ err. LosesTurn err office.old (K.seen keeper.old) (K.seen keeper.new)
        (L.seen link.old) (L.seen link.new)) }
{
    let event = message(alloc, i, wanted)?;
    take(
        alloc,
        &event,
        hoped_line(wanted),
        office,
        keeper,
        link,
        tally,
    )
}

// Has the office act on an event, sends what it says and counts it, and tells whether its line has
// these words. A send that fails is passed over.
fn take<L: Link, K: Keeper>(
    alloc: Global,
    event: &Event,
    words: &[u8],
    office: &mut Office,
    keeper: &mut K,
    link: &mut L,
    tally: &mut Tally,
) -> Result<bool, KeepErr>
    ensures { MatchResult result
        (λ same. TookTurn event.now words.now same office.old office.new
        (K.seen keeper.old) (K.seen keeper.new) (L.seen link.old) (L.seen link.new)
        tally.old tally.new)
        (λ err. LosesTurn err office.old (K.seen keeper.old) (K.seen keeper.new)
        (L.seen link.old) (L.seen link.new)) }
{
    let mut replies = Replies::new(alloc);
    match office.step(keeper, event, &mut replies) {
        Outcome::Did => {
            let _all = send_all(link, Pass::of(keeper), &replies);
            *tally = count_said(*tally, &replies);
            Ok(replies.line() == words)
        }
        Outcome::Memory => Err(KeepErr::Memory),
        Outcome::Keeper => Err(KeepErr::Failed),
    }
}
