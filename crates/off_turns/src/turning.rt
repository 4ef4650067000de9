ghost use Rattle.std.specs.Prelude.{◌≡◌, MatchResult};
ghost use Rattle.off_book.specs.Run.{is_end};
ghost use Rattle.off_turns.specs.Serving.{Turns, ActWritten, ActCut, world_of};

use crate::lines::write_line;
use crate::sending::send_added;
use crate::taking::{Taken, take_event};
use off_office::{Office, send_all};
use off_outside::{Event, Failed, Keeper, Link, Pass, Replies, Sink, What};
use std::alloc::Global;

/// What came of one turn.
#[derive(Clone, Copy)]
pub enum Turned {
    /// An event was taken, and there may be more.
    Went,
    /// An End was taken.
    Ended,
    /// The line of the event was cut off.
    Cut,
    /// No event came for want of memory.
    Memory,
    /// No event came: the link failed too often in a row.
    Missed,
}

/// Takes one event, has the office act on it, sends what it says and writes its line.
pub fn take_turn<L: Link, K: Keeper, W: Sink>(
    alloc: Global,
    number: u64,
    office: &mut Office,
    link: &mut L,
    keeper: &mut K,
    out: &mut W,
) -> Turned
    requires { (L.seen link.old).missed ≡ 0 }
    ensures { Turns result number office.old office.new
        (world_of (L.seen link.old) (K.seen keeper.old) (W.seen out.old))
        (world_of (L.seen link.new) (K.seen keeper.new) (W.seen out.new)) }
{
    match take_event(alloc, link) {
        Taken::Took(event) => match act(alloc, number, &event, office, link, keeper, out) {
            Ok(()) => {
                if is_end(&event.what) {
                    Turned::Ended
                } else {
                    Turned::Went
                }
            }
            Err(Failed) => Turned::Cut,
        },
        Taken::Memory => Turned::Memory,
        Taken::Missed => Turned::Missed,
    }
}

// Has the office act on an event, sends what it says and writes its line.
fn act<L: Link, K: Keeper, W: Sink>(
    alloc: Global,
    number: u64,
    event: &Event,
    office: &mut Office,
    link: &mut L,
    keeper: &mut K,
    out: &mut W,
) -> Result<(), Failed>
    ensures { let old = world_of (L.seen link.old) (K.seen keeper.old) (W.seen out.old) in
        let new = world_of (L.seen link.new) (K.seen keeper.new) (W.seen out.new) in
        MatchResult result (λ _. ActWritten event.now number office.old office.new old new)
        (λ _. ActCut event.now number office.old office.new old new) }
{
    let mut replies = Replies::new(alloc);
    let outcome = office.step(keeper, event, &mut replies);
    let pass = Pass::of(keeper);
    let said = send_all(link, pass, &replies);
    let added = send_added(link, pass, &event.what, outcome);
    write_line(out, number, event, replies.line(), said & added)
}

fn is_end(what: &What) -> bool
    ensures { result ≡ is_end what.now }
{
    match what {
        What::Datagram {
            service: _,
            from: _,
            bytes: _,
        } => false,
        What::Piece { conn: _, bytes: _ } => false,
        What::Closed { conn: _ } => false,
        What::Tick => false,
        What::End => true,
    }
}
