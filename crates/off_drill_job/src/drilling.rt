ghost use Rattle.std.specs.Prelude.{◌≡◌, ◌≤◌, MatchResult};
ghost use Rattle.off_defs.specs.State.{held_at_start};
ghost use Rattle.off_outside.specs.KeeperCalls.{NotDone};
ghost use Rattle.off_drill_job.specs.Drilling.{FindsRows, GoesOn, Ends, Drills};

use crate::exercising::exercise;
use crate::founding::found;
use crate::telling::tell_end;
use off_drill_parts::none_yet;
use off_drill_rules::Tally;
use off_office::{Office, StartErr};
use off_outside::{KeepErr, Keeper, Link, Sink};
use std::alloc::Global;

/// What became of a drill.
#[derive(Clone, Copy, PartialEq, Eq)]
pub enum Ended {
    /// The tables didn't open.
    Closed(StartErr),
    /// The tables have rows.
    NotEmpty,
    /// The keeper failed, or memory was wanted, before the end.
    Broken(KeepErr),
    /// It came to its end, and this is what it counted.
    Done(Tally),
}

/// Exercises the whole office: founds one over tables without rows, with so many modems, has each
/// of them boot, and writes what came of it.
///
/// Status 0: it came to its end. 2: the tables don't open, and the line names their least bad key.
/// 3: the keeper failed. 4: the sink failed. 6: memory was refused. 9: the tables have rows. What
/// the office says is sent by the link; a send that fails is passed over.
pub fn drill<L: Link, K: Keeper, W: Sink>(
    alloc: Global,
    count: u32,
    link: &mut L,
    keeper: &mut K,
    out: &mut W,
) -> u8
    requires { count ≤ 4000 }
    ensures { Drills count result (K.seen keeper.old) (K.seen keeper.new)
        (L.seen link.old) (L.seen link.new) (W.seen out.old) (W.seen out.new) }
{
    let end = come_to_end(alloc, count, link, keeper);
    tell_end(count, end, out)
}

// Opens the tables, and goes on where they have no rows.
fn come_to_end<L: Link, K: Keeper>(alloc: Global, count: u32, link: &mut L, keeper: &mut K) -> Ended
    requires { count ≤ 4000 }
    ensures { Ends result count (K.seen keeper.old) (K.seen keeper.new)
        (L.seen link.old) (L.seen link.new) }
{
    match Office::start(alloc, keeper) {
        Ok(mut office) => match has_rows(alloc, keeper) {
            Ok(true) => Ended::NotEmpty,
            Ok(false) => carry_out(alloc, count, &mut office, link, keeper),
            Err(err) => Ended::Broken(err),
        },
        Err(err) => Ended::Closed(err),
    }
}

// Whether the tables have any row.
fn has_rows<K: Keeper>(alloc: Global, keeper: &mut K) -> Result<bool, KeepErr>
    ensures { MatchResult result
        (λ some. FindsRows some (K.seen keeper.old) (K.seen keeper.new))
        (λ err. NotDone err (K.seen keeper.old) (K.seen keeper.new)) }
{
    match keeper.next(alloc, None) {
        Ok(entry) => Ok(entry.is_some()),
        Err(err) => Err(err),
    }
}

// Has an office that has just begun found all rows, and serve all modems.
fn carry_out<L: Link, K: Keeper>(
    alloc: Global,
    count: u32,
    office: &mut Office,
    link: &mut L,
    keeper: &mut K,
) -> Ended
    requires few { count ≤ 4000 }
    requires fresh { office.old.held ≡ held_at_start }
    ensures { GoesOn result count office.old (K.seen keeper.old) (K.seen keeper.new)
        (L.seen link.old) (L.seen link.new) }
{
    let mut tally = none_yet();
    match found(alloc, count, office, keeper) {
        Ok(()) => match exercise(alloc, count, office, keeper, link, &mut tally) {
            Ok(()) => Ended::Done(tally),
            Err(err) => Ended::Broken(err),
        },
        Err(err) => Ended::Broken(err),
    }
}
