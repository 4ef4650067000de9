ghost use Rattle.std.specs.Prelude.{◌≡◌, ◌++◌, ◌≤◌, length};
ghost use Rattle.off_turns.specs.Loop.{Served};
ghost use Rattle.off_turns.specs.Serving.{world_of};

use crate::turning::{Turned, take_turn};
use off_office::Office;
use off_outside::{Keeper, Link, Sink};
use std::alloc::Global;

/// Why `serve` stopped.
#[derive(Clone, Copy)]
pub enum Stop {
    /// All turns were taken, or an End came.
    Finished,
    /// Memory was wanted for the next event.
    Memory,
    /// The link failed too often in a row.
    Link,
    /// The sink failed.
    Sink,
}

/// Takes events until an End, `turns` of them at most.
pub fn serve_events<L: Link, K: Keeper, W: Sink>(
    alloc: Global,
    turns: u64,
    office: &mut Office,
    link: &mut L,
    keeper: &mut K,
    out: &mut W,
) -> Stop
    requires { (L.seen link.old).missed ≡ 0 }
    ensures { Served result turns office.old office.new
        (world_of (L.seen link.old) (K.seen keeper.old) (W.seen out.old))
        (world_of (L.seen link.new) (K.seen keeper.new) (W.seen out.new)) }
{
    for done in 0..turns {
        match take_turn(alloc, done + 1, office, link, keeper, out) {
            Turned::Went => {}
            Turned::Ended => return Stop::Finished,
            Turned::Cut => return Stop::Sink,
            Turned::Memory => return Stop::Memory,
            Turned::Missed => return Stop::Link,
        }
    }
    Stop::Finished
}
