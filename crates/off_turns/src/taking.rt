ghost use Rattle.std.specs.Prelude.{◌≡◌};
ghost use Rattle.off_turns.specs.Serving.{Tries};

use off_outside::{Event, Link, LinkErr};
use std::alloc::Global;

/// How many calls of `next` may fail in a row.
const MOST_MISSED: u32 = 16;

/// What came of the tries to take an event.
#[derive(Drop)]
pub enum Taken {
    Took(Event),
    Memory,
    Missed,
}

/// Takes the next event, and tries again where the link fails, sixteen times at most.
pub fn take_event<L: Link>(alloc: Global, link: &mut L) -> Taken
    requires { (L.seen link.old).missed ≡ 0 }
    ensures { Tries result (L.seen link.old) (L.seen link.new) }
{
    for _attempt in 0..MOST_MISSED {
        match link.next(alloc) {
            Ok(event) => return Taken::Took(event),
            Err(LinkErr::Memory) => return Taken::Memory,
            Err(LinkErr::Failed) => {}
        }
    }
    Taken::Missed
}
