ghost use Rattle.std.specs.Prelude.{◌≡◌};
ghost use Rattle.off_defs.specs.Told.{one_exact};

use off_base::Peer;
use off_outside::{Calls, Event, Failed, Link, LinkErr, MemLink, Pass, Service, one_more};
use std::alloc::Global;

/// A link in memory, for which memory is wanted at listed calls of `next`; these are counted from
/// 1. The link in it isn't asked then, and doesn't count them.
#[derive(Drop)]
pub struct WantingLink {
    link: MemLink,
    wants: Calls,
    asked: u64,
}

impl WantingLink {
    /// One that wasn't asked yet.
    pub fn new(link: MemLink, wants: Calls) -> WantingLink
        ensures { result.link ≡ link }
    {
        WantingLink {
            link,
            wants,
            asked: 0,
        }
    }

    /// The link in memory, with what was sent.
    pub fn held(&self) -> &MemLink {
        &self.link
    }
}

impl Link for WantingLink {
    ghost seen = { λ w. ⟦<MemLink as Link>⟧.seen w.link };

    #[tactic(auto, using(crate::proofs::WantingLemmas::wanted))]
    fn next(&mut self, alloc: Global) -> Result<Event, LinkErr> {
        self.asked = one_more(self.asked);
        if self.wants.has(self.asked) {
            return Err(LinkErr::Memory);
        }
        self.link.next(alloc)
    }

    fn next_waiting(&mut self, alloc: Global) -> Result<Option<Event>, LinkErr> {
        self.link.next_waiting(alloc)
    }

    fn send(&mut self, pass: Pass, service: Service, to: Peer, bytes: &[u8]) -> Result<(), Failed> {
        self.link.send(pass, service, to, bytes)
    }

    fn answer(&mut self, pass: Pass, conn: u32, bytes: &[u8]) -> Result<(), Failed> {
        self.link.answer(pass, conn, bytes)
    }

    fn close(&mut self, pass: Pass, conn: u32) -> Result<(), Failed> {
        self.link.close(pass, conn)
    }

    ghost one_left = { λ w up. one_exact w.link.left };

    ghost one_sent = { λ w up. one_exact w.link.outbox.sent };

    ghost one_moments = { λ w up. one_exact w.link.outbox.moments };
}
