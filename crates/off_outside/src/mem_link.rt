ghost use Rattle.std.specs.Prelude.{◌≡◌, ◌<◌, ◌≤◌, length, max, slice_get, Some, IfOk};
ghost use Rattle.off_defs.specs.Told.{one_exact};
ghost use Rattle.off_defs.specs.Counts.{one_more, most_count};
ghost use Rattle.off_defs.specs.declared.results.Sent.TheVariants as sent;
ghost use Rattle.off_outside.specs.LinkCalls.{Takes, TakesWaiting, Sends};
ghost use Rattle.off_outside.specs.declared.link.LinkErr.TheVariants as link_err;
ghost use Rattle.off_outside.specs.InMemory.{
  link_seen,
  LinkTells,
  new_link,
  MemTakes,
  MemTakesWaiting,
  MemSends,
};
ghost use Rattle.off_outside.specs.Outboxes.{lent_item};

use crate::failing::{Calls, Failing, one_more};
use crate::link::{Failed, Link, LinkErr};
use crate::outbox::{Outbox, SentRef};
use crate::pass::Pass;
use crate::queue::Events;
use off_base::{Moment, NoMemory, Peer};
use off_defs::{Event, Service, What};
use std::alloc::Global;
use std::marker::Model;

/// A link whose events are given when it is made, and which keeps what is sent.
#[derive(Drop)]
pub struct MemLink {
    events: Events,
    outbox: Outbox,
    failing: Failing,
    together: u64,
    waiting: u64,
    missed: u64,
    longest: u64,
    faults: u64,
    unsent: u64,
}

impl Model for MemLink {
    ghost use Rattle.off_outside.specs.InMemory.{MemLinkHeld};

    ghost Value = { MemLinkHeld };

    ghost view = { λ m. record {
      left = m.events;
      outbox = m.outbox;
      calls = m.failing;
      together = m.together;
      waiting = m.waiting;
      missed = m.missed;
      longest = m.longest;
      faults = m.faults;
      unsent = m.unsent;
    } };
}

impl MemLink {
    /// Takes room for `items` sent items of `octets` bytes in all. A send past that room fails, and
    /// is counted.
    pub fn new(
        alloc: Global,
        events: Events,
        items: usize,
        octets: usize,
        fails: Calls,
    ) -> Result<MemLink, NoMemory>
        ensures holds { IfOk result (λ link. link ≡ new_link events items octets fails) }
        ensures tells { IfOk result (λ link. LinkTells link (⟦<MemLink as Link>⟧.seen link)) }
    {
        let outbox = Outbox::new(alloc, items, octets)?;
        Ok(MemLink {
            events,
            outbox,
            failing: Failing::new(fails),
            together: 0,
            waiting: 0,
            missed: 0,
            longest: 0,
            faults: 0,
            unsent: 0,
        })
    }

    /// The link with events that come together: when one is taken by `next`, so many of those to
    /// come wait already.
    pub fn together(mut self, more: u64) -> MemLink
        ensures { result ≡ record self { together = more } }
    {
        self.together = more;
        self
    }

    /// How many items were sent.
    pub fn sent_len(&self) -> usize
        ensures count { result ≡ length self.now.outbox.sent }
        ensures told { (⟦<MemLink as Link>⟧.seen self.now).sent self.now.outbox.sent }
    {
        self.outbox.len()
    }

    /// Sent item `i`, from 0.
    pub fn sent(&self, i: usize) -> SentRef<'_>
        requires { i < length self.now.outbox.sent }
        ensures item { slice_get self.now.outbox.sent i ≡ Some (lent_item result) }
        ensures told { (⟦<MemLink as Link>⟧.seen self.now).sent self.now.outbox.sent }
    {
        self.outbox.get(i)
    }

    /// The keeper's moment at which item `i` was sent, from 0.
    pub fn moment(&self, i: usize) -> u64
        requires { i < length self.now.outbox.moments }
        ensures moment { slice_get self.now.outbox.moments i ≡ Some result }
        ensures told { (⟦<MemLink as Link>⟧.seen self.now).moments self.now.outbox.moments }
    {
        self.outbox.moment(i)
    }

    // Counts a call that gives no event.
    fn miss(&mut self) -> LinkErr
        ensures err { result ≡ link_err.Failed }
        ensures counted { self.new ≡ record self.old {
          missed = one_more self.old.missed;
          longest = max self.old.longest (one_more self.old.missed);
          faults = one_more self.old.faults;
        } }
        ensures fits { self.old.faults ≤ most_count }
    {
        self.missed = one_more(self.missed);
        self.longest = self.longest.max(self.missed);
        self.faults = one_more(self.faults);
        LinkErr::Failed
    }

    // Counts an item that isn't sent.
    fn lose(&mut self) -> Failed
        ensures counted { self.new ≡ record self.old { unsent = one_more self.old.unsent } }
        ensures fits { self.old.unsent ≤ most_count }
    {
        self.unsent = one_more(self.unsent);
        Failed
    }
}

impl Link for MemLink {
    ghost seen = { λ m. link_seen m };

    fn next(&mut self, alloc: Global) -> Result<Event, LinkErr>
        ensures told { Takes result (link_seen self.old) (link_seen self.new) }
        ensures exact { MemTakes result self.old self.new }
    {
        if self.failing.call() {
            return Err(self.miss());
        }
        self.missed = 0;
        self.waiting = self.together;
        match self.events.take_first() {
            Some(event) => Ok(event),
            None => Ok(Event {
                at: Moment(0),
                what: What::End,
            }),
        }
    }

    fn next_waiting(&mut self, alloc: Global) -> Result<Option<Event>, LinkErr>
        ensures told { TakesWaiting result (link_seen self.old) (link_seen self.new) }
        ensures exact { MemTakesWaiting result self.old self.new }
    {
        if self.waiting == 0 || self.events.is_empty() {
            return Ok(None);
        }
        if self.failing.call() {
            return Err(self.miss());
        }
        self.missed = 0;
        self.waiting -= 1;
        Ok(self.events.take_first())
    }

    fn send(&mut self, pass: Pass, service: Service, to: Peer, bytes: &[u8]) -> Result<(), Failed>
        ensures told { Sends result (sent.Datagram service to bytes.now) pass.moment
            (link_seen self.old) (link_seen self.new) }
        ensures exact { MemSends result (sent.Datagram service to bytes.now) pass.moment
            (length bytes.now) self.old self.new }
    {
        let listed = self.failing.call();
        if listed {
            return Err(self.lose());
        }
        if !self.outbox.has_room(bytes.len()) {
            return Err(self.lose());
        }
        self.outbox.datagram(pass, service, to, bytes);
        Ok(())
    }

    fn answer(&mut self, pass: Pass, conn: u32, bytes: &[u8]) -> Result<(), Failed>
        ensures told { Sends result (sent.Answer conn bytes.now) pass.moment
            (link_seen self.old) (link_seen self.new) }
        ensures exact { MemSends result (sent.Answer conn bytes.now) pass.moment
            (length bytes.now) self.old self.new }
    {
        let listed = self.failing.call();
        if listed {
            return Err(self.lose());
        }
        if !self.outbox.has_room(bytes.len()) {
            return Err(self.lose());
        }
        self.outbox.answer(pass, conn, bytes);
        Ok(())
    }

    fn close(&mut self, pass: Pass, conn: u32) -> Result<(), Failed>
        ensures told { Sends result (sent.Close conn) pass.moment
            (link_seen self.old) (link_seen self.new) }
        ensures exact { MemSends result (sent.Close conn) pass.moment 0 self.old self.new }
    {
        let listed = self.failing.call();
        if listed {
            return Err(self.lose());
        }
        if !self.outbox.has_room(0) {
            return Err(self.lose());
        }
        self.outbox.close(pass, conn);
        Ok(())
    }

    ghost one_left = { λ m up. one_exact m.left };

    ghost one_sent = { λ m up. one_exact m.outbox.sent };

    ghost one_moments = { λ m up. one_exact m.outbox.moments };
}
