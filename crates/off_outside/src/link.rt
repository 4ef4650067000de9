ghost use Rattle.off_defs.specs.Told.{IsOne};
ghost use Rattle.off_defs.specs.declared.results.Sent.TheVariants as sent;
ghost use Rattle.off_outside.specs.LinkSeen.{LinkSeen};
ghost use Rattle.off_outside.specs.LinkCalls.{Takes, TakesWaiting, Sends};

use crate::pass::Pass;
use off_base::Peer;
use off_defs::{Event, Service};
use std::alloc::Global;

/// Why a link gave no event.
#[derive(Clone, Copy, PartialEq, Eq)]
pub enum LinkErr {
    /// Memory was wanted, and refused.
    Memory,
    /// The link failed, and counted a fault.
    Failed,
}

/// A call failed, and counted a fault.
#[derive(Clone, Copy, PartialEq, Eq)]
pub struct Failed;

/// Where events come from, and by what the office sends.
pub trait Link {
    // What it tells: the events still to come, what was sent, and the moment of each item that was,
    // each perhaps untold; how many `next` failed in a row; its faults; and its items that weren't
    // sent.
    ghost seen: { Self → LinkSeen };

    /// Takes the first event to come, or gives End at moment 0 where none is left. After an error
    /// the events to come are as before, and `Failed` has raised `faults`.
    fn next(&mut self, alloc: Global) -> Result<Event, LinkErr>
        ensures { Takes result (seen self.old) (seen self.new) };

    /// Takes the first event to come if one waits already, and doesn't wait for one. After `None`
    /// all is as before, and after an error as after one of `next`.
    fn next_waiting(&mut self, alloc: Global) -> Result<Option<Event>, LinkErr>
        ensures { TakesWaiting result (seen self.old) (seen self.new) };

    /// Sends a datagram from the service's port, at the keeper's moment that the pass has. It takes
    /// no memory. After `Failed` nothing was sent, and `unsent` rose.
    fn send(&mut self, pass: Pass, service: Service, to: Peer, bytes: &[u8]) -> Result<(), Failed>
        ensures { Sends result (sent.Datagram service to bytes.now) pass.moment
            (seen self.old) (seen self.new) };

    /// Sends bytes on a clerk's connection, as `send` does.
    fn answer(&mut self, pass: Pass, conn: u32, bytes: &[u8]) -> Result<(), Failed>
        ensures { Sends result (sent.Answer conn bytes.now) pass.moment
            (seen self.old) (seen self.new) };

    /// Closes a clerk's connection, as `send` does.
    fn close(&mut self, pass: Pass, conn: u32) -> Result<(), Failed>
        ensures { Sends result (sent.Close conn) pass.moment (seen self.old) (seen self.new) };

    // What is told is one value, as long as the link is up.
    ghost one_left: { (s : Self) → (seen s).up → IsOne (seen s).left };

    ghost one_sent: { (s : Self) → (seen s).up → IsOne (seen s).sent };

    ghost one_moments: { (s : Self) → (seen s).up → IsOne (seen s).moments };
}
