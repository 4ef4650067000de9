ghost use Rattle.std.specs.Prelude.{◌≡◌, ◌≤◌, ◌<◌, ◌+◌, ◌∷◌, [], IsTrue, MatchResult, OnOk};
ghost use Rattle.std.specs.FinMap as map;
ghost use Rattle.off_defs.specs.State.{held_at};
ghost use Rattle.off_orders.specs.Sound.{is_sound};
ghost use Rattle.off_order_laws.specs.Laws.{secret_fits};
ghost use Rattle.off_drill_rules.specs.Rows.{begins_at, with_site, with_class, founded, peopled};
ghost use Rattle.off_drill_rules.specs.Law.{held_behind};
ghost use Rattle.off_drill_job.specs.Founding.{GaveCommand, Builds, Halts, PassesOver};
ghost use Rattle.off_drill_parts.specs.Commands.{put_class, settling, peopling, founding};

use off_accounts::AccountErr;
use off_base::Moment;
use off_drill_parts::{BEGINS_AT, put_class, put_hub, put_modem, put_pool, put_subscriber};
use off_office::Office;
use off_orders::Command;
use off_outside::{KeepErr, Keeper};
use std::alloc::Global;

/// Gives an office that has just begun its site, its class, its pool, and so many subscribers and
/// modems. A command that a rule refuses is passed over.
pub(crate) fn found<K: Keeper>(
    alloc: Global,
    count: u32,
    office: &mut Office,
    keeper: &mut K,
) -> Result<(), KeepErr>
    requires few { count ≤ 4000 }
    requires ready { held_at office.old.held begins_at ≡ held_behind 0 }
    ensures told { MatchResult result
        (λ _. Builds (founding count) map.empty (peopled count) office.old office.new
        (K.seen keeper.old) (K.seen keeper.new))
        (λ err. Halts err (founding count) office.old (K.seen keeper.old) (K.seen keeper.new)) }
    ensures held { OnOk result (office.new.held ≡ held_behind 0) }
{
    give(&put_hub(), office, keeper)?;
    give_class(alloc, office, keeper)?;
    give(&put_pool(), office, keeper)?;
    people(count, office, keeper)
}

// Gives the office its one class.
fn give_class<K: Keeper>(alloc: Global, office: &mut Office, keeper: &mut K) -> Result<(), KeepErr>
    requires { held_at office.old.held begins_at ≡ held_behind 0 }
    ensures told { MatchResult result
        (λ _. Builds (put_class ∷ []) with_site with_class office.old office.new
        (K.seen keeper.old) (K.seen keeper.new))
        (λ err. Halts err (put_class ∷ []) office.old (K.seen keeper.old) (K.seen keeper.new)) }
    ensures held { OnOk result (office.new.held ≡ held_behind 0) }
{
    let command = put_class(alloc)?;
    give(&command, office, keeper)
}

// Gives the office so many subscribers and their modems.
fn people<K: Keeper>(count: u32, office: &mut Office, keeper: &mut K) -> Result<(), KeepErr>
    requires few { count ≤ 4000 }
    requires ready { office.old.held ≡ held_behind 0 }
    ensures told { MatchResult result
        (λ _. Builds (peopling count) founded (peopled count) office.old office.new
        (K.seen keeper.old) (K.seen keeper.new))
        (λ err. Halts err (peopling count) office.old (K.seen keeper.old) (K.seen keeper.new)) }
    ensures held { OnOk result (office.new.held ≡ held_behind 0) }
{
    for k in 0..count {
        settle(k, office, keeper)?;
    }
    Ok(())
}

// Gives the office the next modem behind `k` others, with its subscriber.
fn settle<K: Keeper>(k: u32, office: &mut Office, keeper: &mut K) -> Result<(), KeepErr>
    requires few { k < 4000 }
    requires ready { held_at office.old.held begins_at ≡ held_behind 0 }
    ensures told { MatchResult result
        (λ _. Builds (settling k) (peopled k) (peopled (k + 1)) office.old office.new
        (K.seen keeper.old) (K.seen keeper.new))
        (λ err. Halts err (settling k) office.old (K.seen keeper.old) (K.seen keeper.new)) }
    ensures held { OnOk result (office.new.held ≡ held_behind 0) }
{
    give(&put_subscriber(k + 1), office, keeper)?;
    give(&put_modem(k + 1), office, keeper)
}

// Gives the office a command at the drill's first moment.
fn give<K: Keeper>(command: &Command, office: &mut Office, keeper: &mut K) -> Result<(), KeepErr>
    requires sound { IsTrue (is_sound command.now) }
    requires fits { IsTrue (secret_fits command.now) }
    requires ready { held_at office.old.held begins_at ≡ held_behind 0 }
    ensures told { MatchResult result
        (λ _. GaveCommand command.now office.old office.new (K.seen keeper.old) (K.seen keeper.new))
        (λ err. Halts err (command.now ∷ []) office.old (K.seen keeper.old) (K.seen keeper.new)) }
    ensures held { office.new.held ≡ held_behind 0 }
{
    match office.command(keeper, Moment(BEGINS_AT), command) {
        Ok(_reply) => Ok(()),
        Err(err) => pass_over(err),
    }
}

// A command that a rule refuses is passed over.
fn pass_over(err: AccountErr) -> Result<(), KeepErr>
    ensures { PassesOver err result }
{
    match err {
        AccountErr::Refused { row: _, rule: _ } => Ok(()),
        AccountErr::Failed => Err(KeepErr::Failed),
        AccountErr::Memory => Err(KeepErr::Memory),
    }
}
